use crate::support::equal_lists;
use resolver_base::Numbers;

#[test]
fn counts_up(rt: HostRuntime) {
    let mut numbers = Numbers::new();
    let seen = [
        numbers.peek(),
        numbers.take(),
        numbers.peek(),
        numbers.take(),
        numbers.peek(),
        numbers.take(),
    ];
    let wanted = [Some(0), Some(0), Some(1), Some(1), Some(2), Some(2)];
    equal_lists(&rt, &seen, &wanted);
}

#[test]
fn ends_after_the_last(rt: HostRuntime) {
    let mut numbers = Numbers::starting_at(u64::MAX);
    let seen = [numbers.take(), numbers.take(), numbers.take()];
    equal_lists(&rt, &seen, &[Some(u64::MAX), None, None]);
}
