//! What a caller keeps of a machine.

ghost use Rattle.std.specs.Prelude.{◌≡◌, Option, Some, None, IsSome};
ghost use Rattle.resolver_flat_machine.specs.declared.machine.Machine.{Machine};
ghost use Rattle.resolver_flat_machine.specs.contracts.machine.Machine.{the_row};
ghost use Rattle.resolver_c.specs.Slots.{slot_owns};

use resolver_boxed::Boxed;
use resolver_flat_machine::Machine;
use std::alloc::Global;
use std::marker::Model;
use std::mem::replace;
use std::ptr::null_mut;

/// The address of a machine, or null. Only the calls of this library read or change it, one at a time.
#[repr(C)]
#[derive(Drop)]
pub struct Slot {
    at: *mut u8,
    pub ghost held: { Option Machine },
}

impl Model for Slot {
    ghost also_owns = { λ s. slot_owns the_row s.at s.held };
}

fn empty() -> Slot
    ensures { result.held ≡ None }
{
    Slot { at: null_mut() }
}

fn slot_of(machine: Boxed<Machine, Global>) -> Slot
    ensures { result.held ≡ Some machine.value }
{
    let Boxed { at, alloc: _ } = machine;
    Slot { at: at.cast() }
}

fn boxed_of(alloc: Global, slot: Slot) -> Boxed<Machine, Global>
    requires { IsSome slot.held }
    ensures { slot.held ≡ Some result.value }
{
    let Slot { at } = slot;
    Boxed {
        at: at.cast(),
        alloc,
    }
}

/// Takes the machine out of its slot.
pub fn take(alloc: Global, slot: &mut Slot) -> Box<Machine, Global>
    requires { IsSome slot.old.held }
    ensures taken { slot.old.held ≡ Some result.value }
    ensures empty { slot.new.held ≡ None }
{
    boxed_of(alloc, replace(slot, empty())).into_box()
}

/// Puts a machine into an empty slot.
pub fn keep(slot: &mut Slot, machine: Box<Machine, Global>)
    requires { slot.old.held ≡ None }
    ensures { slot.new.held ≡ Some machine.value }
{
    *slot = slot_of(Boxed::of(machine));
}
