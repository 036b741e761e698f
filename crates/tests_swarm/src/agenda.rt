//! In which order what will happen happens.

use resolver_base::Moment;
use resolver_swarm::agenda::Agenda;
use std::panic::Expect;

/// What happens, in order, with the nanosecond of each.
const HAPPENS: &[(u8, &str)] = &[
    (4, "first"),
    (5, "second"),
    (5, "third"),
    (5, "fourth"),
    (6, "last"),
];

fn moment(nanoseconds: u8) -> Moment {
    Moment {
        nanoseconds: u128::from(nanoseconds),
    }
}

#[test]
fn what_is_put_down_first_happens_first(rt: HostRuntime) {
    let mut agenda = Agenda::new(rt.alloc());
    agenda.put(moment(6), "last").expect(&rt, "memory");
    agenda.put(moment(5), "second").expect(&rt, "memory");
    agenda.put(moment(4), "first").expect(&rt, "memory");
    agenda.put_soon(moment(5), "third").expect(&rt, "memory");
    agenda.put(moment(5), "fourth").expect(&rt, "memory");
    for (at, what) in HAPPENS {
        assert!(rt; agenda.take() == Some((moment(*at), *what)), "{what}");
    }
    assert!(rt; agenda.take().is_none(), "nothing is left");
}
