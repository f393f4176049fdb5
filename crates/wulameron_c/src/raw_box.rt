//! A box by its pointer, for values of any type: where C holds a value, it holds such a pointer.
//!
//! `RawBox::take` and `RawBox::join` take a box of any type apart and put it together again. Both are proved by hand.

ghost use Rattle.std.specs.Prelude.{◌≡◌};
ghost use Rattle.std.specs.Box.Ownership.{box_owns};

use std::alloc::Allocator;
use std::marker::Model;

/// A box taken apart: its pointer, and what frees that. It owns what the box owned, and has to be put together again.
pub struct RawBox<T, A: Allocator> {
    /// Where the value lies.
    pub pointer: *mut T,
    /// What frees it.
    pub alloc: A,
    /// The value.
    pub ghost value: { T },
}

impl<T, A: Allocator> Model for RawBox<T, A> {
    ghost also_owns = { λ apart. box_owns (A.dealloc_token apart.alloc) T.row apart.pointer apart.value };
}

impl<T: Drop, A: Allocator> RawBox<T, A> {
    /// Takes a box apart. The value stays where it lies.
    pub fn take(boxed: Box<T, A>) -> RawBox<T, A>
        ensures { result.value ≡ boxed.value }
    {
        let (pointer, alloc) = Box::into_raw_with_allocator(boxed);
        RawBox { pointer, alloc }
    }

    /// Puts the box together again.
    pub fn join(self) -> Box<T, A>
        ensures { result.value ≡ self.value }
    {
        let RawBox { pointer, alloc } = self;
        unsafe { Box::from_raw(alloc, pointer) }
    }
}
