use crate::support::holds;
use futures::task::Poll;
use futures::test::MockTask;
use resolver_runtime::mocks::Quiet;
use resolver_runtime::{Blocker, Provider};
use std::panic::Expect;
use tests_support::names::Letter;

/// Whether a provider has no set so far, and a blocker nothing to say, also once it was asked to block a peer.
fn gives_nothing<S: Provider<PublicKey = Letter> + Blocker<PublicKey = Letter>>(
    task: &MockTask,
    source: &mut S,
) -> bool {
    task.enter(|cx| {
        let has_no_set = matches!(source.poll_update(cx), Poll::Pending);
        source.block(&Letter(4));
        has_no_set && matches!(source.poll_blocked(cx), Poll::Pending)
    })
}

#[test]
fn quiet_sources_give_nothing(rt: HostRuntime) {
    let rt = &rt;
    let task = MockTask::new(rt).expect(rt, "a task");
    let mut quiet = Quiet::new();
    for _ in 0..3 {
        holds(rt, gives_nothing(&task, &mut quiet));
        holds(rt, !task.is_woken());
    }
}
