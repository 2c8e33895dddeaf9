//! Where the caller gets the handle of an index.
ghost use Rattle.std.specs.Prelude.{◌≡◌, IsSome, None, Option, Some};
ghost use Rattle.blink_store.specs.{PlainStore};
ghost use Rattle.blink_c.specs.IndexOwned.{slot_coded, slot_owns};

use crate::index_handle::IndexHandle;
use crate::parts::Parts;
use blink_index::Index;
use std::alloc::Global;
use std::marker::Model;
use std::{mem, ptr};

/// A place for a handle, laid out as one. The caller passes it empty, and has an `IndexHandle` there once it is full; or full, to a
/// call that takes what is there.
#[repr(C)]
#[derive(Drop)]
pub struct IndexSlot {
    at: *mut u8,
    alloc: Global,
    pub ghost value: { Option PlainStore } by { slot_coded },
}

// A full slot owns what a handle at its pointer owns, and an empty one nothing, whatever its pointer is.
impl Model for IndexSlot {
    ghost also_owns = { λ s. slot_owns s.alloc s.at s.value };
}

impl IndexSlot {
    /// A full slot.
    pub(crate) fn of(index: Box<Index>) -> IndexSlot
        ensures { result.value ≡ Some index.value }
    {
        IndexSlot::of_parts(Parts::of(index))
    }

    fn of_parts(parts: Parts<Index, Global>) -> IndexSlot
        ensures { result.value ≡ Some parts.value }
    {
        let Parts { ptr, alloc } = parts;
        IndexSlot {
            at: ptr.cast::<u8>(),
            alloc,
        }
    }

    /// Takes the index out of a full slot, and leaves it empty.
    pub(crate) fn take(&mut self, alloc: Global) -> Box<Index>
        requires { IsSome self.old.value }
        ensures taken { self.old.value ≡ Some result.value }
        ensures empty { self.new.value ≡ None }
    {
        mem::replace(self, IndexSlot::empty(alloc))
            .into_handle()
            .into_box()
    }

    // An empty slot, whose pointer is null.
    fn empty(alloc: Global) -> IndexSlot
        ensures { result.value ≡ None }
    {
        IndexSlot {
            at: ptr::null_mut(),
            alloc,
        }
    }

    // The handle in a full slot.
    fn into_handle(self) -> IndexHandle
        requires { IsSome self.value }
        ensures { self.value ≡ Some result.value }
    {
        let IndexSlot { at, alloc } = self;
        IndexHandle { at, alloc }
    }
}
