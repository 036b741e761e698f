//! Steps, and what is handed out in the caller's own room.

ghost use Rattle.std.specs.Prelude.{◌≡◌};
ghost use Rattle.resolver_base.specs.Faults.{number_of};
ghost use Rattle.resolver_c.specs.Calls.{Lists, Tells, Walks, handed};

use resolver_base::Fault;
use resolver_flat_machine::Machine;

/// A step, and its answer as a number.
pub fn step(machine: &mut Machine, input: &[u8]) -> u8
    ensures { Walks input.now machine.old result machine.new }
{
    match machine.step(input) {
        Ok(()) => 0,
        Err(refusal) => refusal.number(),
    }
}

/// The effects of the last step.
pub fn tell(machine: &Machine, out: &mut [u8], length: &mut usize) -> u8
    ensures { Tells machine.now out.old (result, out.new, length.new) }
{
    match machine.told() {
        Ok(effects) => hand(effects.as_slice(), out, length),
        Err(_) => refuse(Fault::OutOfMemory, length),
    }
}

/// The demanded keys.
pub fn list(machine: &Machine, out: &mut [u8], length: &mut usize) -> u8
    ensures { Lists machine.now out.old (result, out.new, length.new) }
{
    match machine.rows() {
        Ok(rows) => hand(rows.as_slice(), out, length),
        Err(fault) => refuse(fault, length),
    }
}

/// Copies the bytes to the front of the room, if it is long enough.
fn hand(bytes: &[u8], out: &mut [u8], length: &mut usize) -> u8
    ensures { (result, out.new, length.new) ≡ handed bytes.now out.old }
{
    *length = bytes.len();
    if out.len() < bytes.len() {
        return 66;
    }
    out[..bytes.len()].copy_from_slice(bytes);
    0
}

fn refuse(fault: Fault, length: &mut usize) -> u8
    ensures code { result ≡ number_of fault }
    ensures none { length.new ≡ 0 }
{
    *length = 0;
    fault.number()
}
