//! Either machine for programs that are not Rattle. What such a program keeps is a `Slot`, which has the
//! machine's address or is empty; the seven calls take one. `bindings/c/resolver.h` declares them.
//!
//! Each call does what its contract says as long as the caller keeps to its `requires`, which nothing
//! checks outside Rattle: see docs/BINDINGS.md.
#![tactic(auto)]

ghost use Rattle.std.specs.Prelude.{◌≡◌, Some, None, IsSome, IsSomeAnd};
ghost use Rattle.resolver_c.specs.Calls.{Counted, Dues, Lists, Opens, Steps, Tells};

pub mod counts;
pub mod deadline;
pub mod handing;
pub mod opening;
pub mod slot;

use crate::counts::Counts;
use crate::deadline::Deadline;
use crate::slot::Slot;
use std::alloc::Global;

/// Opens a machine in an empty slot, with the settings that these bytes spell, all of them: of kind 0 a
/// core and of kind 1 an actor over names of 32 bytes, of kinds 2 and 3 the same over names of 8.
///
/// 0: it is open. Else the slot is empty still: 1, there is no memory; 64, the bytes spell no settings,
/// or there is no such kind.
#[unsafe(no_mangle)]
pub extern "C" fn resolver_open(alloc: Global, slot: &mut Slot, kind: u8, settings: &[u8]) -> u8
    requires empty { slot.old.held ≡ None }
    ensures { Opens kind settings.now result slot.new.held }
{
    match opening::opened(alloc, kind, settings) {
        Ok(machine) => {
            slot::keep(slot, machine);
            0
        }
        Err(misread) => opening::number(misread),
    }
}

/// Takes the input that these bytes spell, all of them.
///
/// 0: it was taken, and its effects are kept until the next step. Else the number of the refusal: up to
/// 13 that of the machine's own, 64 where the bytes spell no input, 65 where there is no memory to read
/// it. At 64 and 65 the machine is as it was, and there are no effects.
#[unsafe(no_mangle)]
pub extern "C" fn resolver_step(alloc: Global, slot: &mut Slot, input: &[u8]) -> u8
    requires held { IsSome slot.old.held }
    ensures { Steps input.now slot.old.held result slot.new.held }
{
    let mut machine = slot::take(alloc, slot);
    let code = handing::step(&mut machine, input);
    slot::keep(slot, machine);
    code
}

/// Spells the effects of the last step, one behind the other.
///
/// 0: `out` begins with them, and `length` is how many bytes they have. Else nothing of `out` was
/// written: 66, it is too short, and `length` is how many bytes are needed; 1, there is no memory to
/// spell them. They can be asked for again.
#[unsafe(no_mangle)]
pub extern "C" fn resolver_told(
    alloc: Global,
    slot: &mut Slot,
    out: &mut [u8],
    length: &mut usize,
) -> u8
    requires held { IsSome slot.old.held }
    ensures kept { slot.new.held ≡ slot.old.held }
    ensures told { IsSomeAnd slot.old.held
        (λ machine. Tells machine out.old (result, out.new, length.new)) }
{
    let machine = slot::take(alloc, slot);
    let code = handing::tell(&machine, out, length);
    slot::keep(slot, machine);
    code
}

/// Spells the demanded keys in their order, each with its subscribers.
///
/// It answers as `resolver_told` does, and 2 where the machine has failed in an earlier step.
#[unsafe(no_mangle)]
pub extern "C" fn resolver_rows(
    alloc: Global,
    slot: &mut Slot,
    out: &mut [u8],
    length: &mut usize,
) -> u8
    requires held { IsSome slot.old.held }
    ensures kept { slot.new.held ≡ slot.old.held }
    ensures listed { IsSomeAnd slot.old.held
        (λ machine. Lists machine out.old (result, out.new, length.new)) }
{
    let machine = slot::take(alloc, slot);
    let code = handing::list(&machine, out, length);
    slot::keep(slot, machine);
    code
}

/// What a core has counted since it was opened, and how much it has now.
///
/// 0, or 67 of an actor, which counts nothing: then `counts` is as it was.
#[unsafe(no_mangle)]
pub extern "C" fn resolver_metrics(alloc: Global, slot: &mut Slot, counts: &mut Counts) -> u8
    requires held { IsSome slot.old.held }
    ensures kept { slot.new.held ≡ slot.old.held }
    ensures counted { IsSomeAnd slot.old.held
        (λ machine. Counted machine counts.old (result, counts.new)) }
{
    let machine = slot::take(alloc, slot);
    let code = counts::count(&machine, counts);
    slot::keep(slot, machine);
    code
}

/// The moments at which to step the machine though nothing else happens: `pending` is when a scan may
/// do something, or when a waiting key of an actor is due; `active` when the time of a request is over.
#[unsafe(no_mangle)]
pub extern "C" fn resolver_deadlines(
    alloc: Global,
    slot: &mut Slot,
    pending: &mut Deadline,
    active: &mut Deadline,
)
    requires held { IsSome slot.old.held }
    ensures kept { slot.new.held ≡ slot.old.held }
    ensures dues { IsSomeAnd slot.old.held (λ machine. Dues machine pending.new active.new) }
{
    let machine = slot::take(alloc, slot);
    deadline::look(&machine, pending, active);
    slot::keep(slot, machine);
}

/// Ends the machine, and leaves the slot empty.
#[unsafe(no_mangle)]
pub extern "C" fn resolver_close(alloc: Global, slot: &mut Slot)
    requires held { IsSome slot.old.held }
    ensures empty { slot.new.held ≡ None }
{
    drop(slot::take(alloc, slot));
}
