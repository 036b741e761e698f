//! A machine that is opened.

ghost use Rattle.std.specs.Prelude.{◌≡◌};
ghost use Rattle.resolver_c.specs.Calls.{Puts, number_of};

use resolver_flat::Misread;
use resolver_flat_machine::Machine;
use std::alloc::Global;

/// A machine of this kind on the heap, with the settings that these bytes spell, all of them.
pub fn opened(alloc: Global, kind: u8, settings: &[u8]) -> Result<Box<Machine, Global>, Misread>
    ensures { Puts kind settings.now result }
{
    let machine = sent(Machine::of_kind(alloc, kind, settings)?);
    Ok(Box::new(alloc, machine)?)
}

/// Hands on what may be moved to another thread. That the check takes a machine here is why the slot of
/// one may be handed to another thread between two calls.
fn sent<T: Send>(it: T) -> T
    ensures { result ≡ it }
{
    it
}

/// Why no machine was opened, as a number.
pub fn number(misread: Misread) -> u8
    ensures { result ≡ number_of misread }
{
    match misread {
        Misread::Misspelled => 64,
        Misread::OutOfMemory => 1,
    }
}
