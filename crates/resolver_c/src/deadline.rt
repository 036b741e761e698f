//! Moments, as they are handed out.

ghost use Rattle.std.specs.Prelude.{◌≡◌};
ghost use Rattle.resolver_c.specs.Calls.{Dues};
ghost use Rattle.resolver_c.specs.Halves.{due_of, high_of, low_of};

use resolver_flat_machine::Machine;

/// A moment, if there is one: nanoseconds of 128 bits in two halves, which are 0 where there is none.
#[repr(C)]
#[derive(Clone, Copy)]
pub struct Deadline {
    pub is: bool,
    pub low: u64,
    pub high: u64,
}

/// When to step the machine next.
pub fn look(machine: &Machine, pending: &mut Deadline, active: &mut Deadline)
    ensures { Dues machine.now pending.new active.new }
{
    *pending = due_of(machine.pending());
    *active = due_of(machine.active());
}

fn due_of(moment: Option<u128>) -> Deadline
    ensures { result ≡ due_of moment }
{
    match moment {
        Some(moment) => Deadline {
            is: true,
            low: low_of(moment),
            high: high_of(moment),
        },
        None => Deadline {
            is: false,
            low: 0,
            high: 0,
        },
    }
}

/// The low half of a number.
pub fn low_of(number: u128) -> u64
    ensures { result ≡ low_of number }
{
    (number % (1 << 64)) as u64
}

/// The high half of a number.
pub fn high_of(number: u128) -> u64
    ensures { result ≡ high_of number }
{
    (number / (1 << 64)) as u64
}
