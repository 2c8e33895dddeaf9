//! Where the caller gets the handle of a reader.
ghost use Rattle.std.specs.Prelude.{◌≡◌, IsSome, None, Option, Some};
ghost use Rattle.blink_handles.specs.declared.reader_owner.ReaderOwner.{ReaderOwner};
ghost use Rattle.blink_c.specs.ReaderOwned.{slot_coded, slot_owns};

use crate::parts::Parts;
use crate::reader_handle::ReaderHandle;
use blink_handles::reader_owner::ReaderOwner;
use std::alloc::Global;
use std::marker::Model;
use std::{mem, ptr};

/// A place for a handle, laid out as one. The caller passes it empty, and has a `ReaderHandle` there once it is full; or full, to a
/// call that takes what is there.
#[repr(C)]
#[derive(Drop)]
pub struct ReaderSlot {
    at: *mut u8,
    alloc: Global,
    pub ghost value: { Option ReaderOwner } by { slot_coded },
}

// A full slot owns what a handle at its pointer owns, and an empty one nothing, whatever its pointer is.
impl Model for ReaderSlot {
    ghost also_owns = { λ s. slot_owns s.alloc s.at s.value };
}

impl ReaderSlot {
    /// A full slot.
    pub(crate) fn of(owner: Box<ReaderOwner>) -> ReaderSlot
        ensures { result.value ≡ Some owner.value }
    {
        ReaderSlot::of_parts(Parts::of(owner))
    }

    fn of_parts(parts: Parts<ReaderOwner, Global>) -> ReaderSlot
        ensures { result.value ≡ Some parts.value }
    {
        let Parts { ptr, alloc } = parts;
        ReaderSlot {
            at: ptr.cast::<u8>(),
            alloc,
        }
    }

    /// Takes the reader out of a full slot, and leaves it empty.
    pub(crate) fn take(&mut self, alloc: Global) -> Box<ReaderOwner>
        requires { IsSome self.old.value }
        ensures taken { self.old.value ≡ Some result.value }
        ensures empty { self.new.value ≡ None }
    {
        mem::replace(self, ReaderSlot::empty(alloc))
            .into_handle()
            .into_box()
    }

    // An empty slot, whose pointer is null.
    fn empty(alloc: Global) -> ReaderSlot
        ensures { result.value ≡ None }
    {
        ReaderSlot {
            at: ptr::null_mut(),
            alloc,
        }
    }

    // The handle in a full slot.
    fn into_handle(self) -> ReaderHandle
        requires { IsSome self.value }
        ensures { self.value ≡ Some result.value }
    {
        let ReaderSlot { at, alloc } = self;
        ReaderHandle { at, alloc }
    }
}
