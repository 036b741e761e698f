//! Which mailbox a handle, a share or a receiver is of, by its type.
//!
//! The puts and the takes of a recorded mailbox are counted by two ledgers: the totals lie beside
//! the desk, and each handle and the receiver have parts of them.

ghost use Rattle.std.specs.Prelude.{◌≡◌, ◌-◌, ◌^◌, ℕ, Bool, true, false};

use std::marker::{Brand, PhantomData};
use std::sync::ledger::{Blank, Ledger};

/// The names of a mailbox's two ledgers.
pub trait Names {
    /// That of its puts.
    ghost puts: { ℕ };

    /// That of its takes.
    ghost takes: { ℕ };
}

impl Names for Brand {
    ghost puts = { 0 };

    ghost takes = { 0 };
}

/// Which mailbox it is, and whether it is recorded. Each call of a program that opens a recorded
/// mailbox picks it, at `Brand`.
pub trait Naming: Names {
    /// Whether there is a book.
    ghost is_recorded: { Bool };
}

impl Naming for Brand {
    ghost is_recorded = { true };
}

/// The naming of all mailboxes that are not recorded. They count nothing.
pub struct Unrecorded;

impl Names for Unrecorded {
    ghost puts = { 0 };

    ghost takes = { 0 };
}

impl Naming for Unrecorded {
    ghost is_recorded = { false };
}

/// The ledger of a mailbox's puts. Each handle that has put has a part.
pub struct Puts<N> {
    of: PhantomData<N>,
}

impl<N: Names> Ledger for Puts<N> {
    ghost name = { N.puts };

    ghost parts = { 2 ^ 64 - 1 };
}

/// The ledger of a mailbox's takes. The receiver has its one part.
pub struct Takes<N> {
    of: PhantomData<N>,
}

impl<N: Names> Ledger for Takes<N> {
    ghost name = { N.takes };

    ghost parts = { 1 };
}

/// Two ledgers that no mailbox has so far. They take no memory.
#[derive(Drop)]
pub struct Pages {
    pub(super) puts: Blank,
    pub(super) takes: Blank,
    pub ghost put_parts: { puts.parts ≡ 2 ^ 64 - 1 },
    pub ghost take_parts: { takes.parts ≡ 1 },
}

impl Pages {
    /// Two new ledgers.
    pub fn new() -> Pages {
        Pages {
            puts: Blank::new(u64::MAX),
            takes: Blank::new(1),
        }
    }
}
