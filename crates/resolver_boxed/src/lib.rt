//! A box taken apart into its address and its allocator, so that who has the address alone can keep it,
//! and made whole again.
#![tactic(auto)]

ghost use Rattle.std.specs.Prelude.{◌≡◌};
ghost use Rattle.std.specs.Box.Ownership.{box_owns};

use std::alloc::Allocator;
use std::marker::Model;

/// A box as its address and its allocator. It owns the value as the box did. It can't be dropped: make
/// it a box again.
pub struct Boxed<T, A: Allocator> {
    pub at: *mut T,
    pub alloc: A,
    pub ghost value: { T },
}

impl<T, A: Allocator> Model for Boxed<T, A> {
    ghost also_owns = { λ b. box_owns (A.dealloc_token b.alloc) T.row b.at b.value };
}

impl<T, A: Allocator> Boxed<T, A> {
    /// Takes the box apart. The value stays where it is.
    pub fn of(whole: Box<T, A>) -> Self
    where
        T: Drop,
        ensures { result.value ≡ whole.value }
    {
        let (at, alloc) = Box::into_raw_with_allocator(whole);
        Boxed { at, alloc }
    }

    /// Makes it a box again.
    pub fn into_box(self) -> Box<T, A>
        ensures { result.value ≡ self.value }
    {
        let Boxed { at, alloc } = self;
        unsafe { Box::from_raw(alloc, at) }
    }
}
