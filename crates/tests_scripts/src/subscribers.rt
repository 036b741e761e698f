//! Who waits for which key, as the docs show it.

use resolver::base::NonEmptyVec;
use resolver::subscribers::Tracker;
use std::alloc::Global;
use std::test::Fail;

fn list(alloc: Global, subscribers: &[(u16, u64)]) -> Result<NonEmptyVec<(u16, u64)>, Fail> {
    let list = NonEmptyVec::try_from(subscribers.to_vec(alloc)?);
    Ok(list.ok().ok_or("a list without subscribers")?)
}

fn insert(
    tracker: &mut Tracker<u16, u16>,
    alloc: Global,
    key: u16,
    subscribers: &[(u16, u64)],
) -> Result<bool, Fail> {
    Ok(tracker.insert(key, list(alloc, subscribers)?)?)
}

fn pending(tracker: &Tracker<u16, u16>, key: u16) -> Result<Vec<(u16, u64)>, Fail> {
    let pending = tracker.pending(&key)?;
    Ok(pending.ok_or("a key that nobody waits for")?.into_vec())
}

#[test]
fn a_tracker_as_its_docs_show_it(rt: HostRuntime) -> Result<(), Fail> {
    let alloc = rt.alloc();
    let mut tracker = Tracker::new(alloc);
    assert!(rt; insert(&mut tracker, alloc, 1, &[(10, 0), (11, 0)])?);
    assert!(rt; !insert(&mut tracker, alloc, 1, &[(11, 0), (12, 0)])?);
    assert_eq!(rt;
        pending(&tracker, 1)?.as_slice(),
        [(10, 0), (11, 0), (12, 0)].as_slice()
    );

    let rest = tracker.remove_delivered(&1, &list(alloc, &[(10, 0), (12, 0)])?)?;
    assert_eq!(rt; rest.ok_or("11 is left")?.as_slice(), [(11, 0)].as_slice());
    Ok(())
}
