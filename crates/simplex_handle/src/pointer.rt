//! A box as a pointer that still owns it.

ghost use Rattle.std.specs.Prelude.{◌≡◌};
ghost use Rattle.std.specs.Box.Ownership.{box_owns};

use std::alloc::Allocator;
use std::marker::Model;

/// What a box owns, as a pointer and an allocator.
pub struct Pointer<T, A: Allocator> {
    pub at: *mut T,
    pub alloc: A,
    pub ghost value: { T },
}

impl<T, A: Allocator> Model for Pointer<T, A> {
    ghost also_owns = { λ p. box_owns (A.dealloc_token p.alloc) T.row p.at p.value };
}

impl<T: Drop, A: Allocator> Pointer<T, A> {
    /// The pointer of a box.
    pub fn of(boxed: Box<T, A>) -> Pointer<T, A>
        ensures { result.value ≡ boxed.value }
    {
        let (at, alloc) = Box::into_raw_with_allocator(boxed);
        Pointer { at, alloc }
    }

    /// The box of the pointer.
    pub fn into_box(self) -> Box<T, A>
        ensures { result.value ≡ self.value }
    {
        let Pointer { at, alloc } = self;
        unsafe { Box::from_raw(alloc, at) }
    }
}
