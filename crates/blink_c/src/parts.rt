//! A box taken apart, with what it owned.
ghost use Rattle.std.specs.Prelude.{◌≡◌};
ghost use Rattle.std.specs.Box.Ownership.{box_owns};

use std::alloc::Allocator;
use std::marker::Model;

/// The fields of a box, which a slot takes over.
pub struct Parts<T, A: Allocator> {
    pub(crate) ptr: *mut T,
    pub(crate) alloc: A,
    pub ghost value: { T },
}

// They own what the box owned.
impl<T, A: Allocator> Model for Parts<T, A> {
    ghost also_owns = { λ p. box_owns (A.dealloc_token p.alloc) T.row p.ptr p.value };
}

impl<T, A: Allocator> Parts<T, A> {
    /// Takes the box apart.
    pub(crate) fn of(whole: Box<T, A>) -> Parts<T, A>
    where
        T: Drop,
        ensures { result.value ≡ whole.value }
    {
        let (ptr, alloc) = Box::into_raw_with_allocator(whole);
        Parts { ptr, alloc }
    }
}
