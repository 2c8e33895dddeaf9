//! The handle of an index.
ghost use Rattle.std.specs.Prelude.{◌≡◌};
ghost use Rattle.blink_store.specs.{PlainStore};
ghost use Rattle.blink_c.specs.IndexOwned.{handle_owns, index_coded};

use blink_index::Index;
use std::alloc::Global;
use std::marker::Model;

/// What the caller holds of an index: a pointer alone, since a `Global` takes no bytes.
#[repr(C)]
pub struct IndexHandle {
    pub(crate) at: *mut u8,
    pub(crate) alloc: Global,
    pub ghost value: { PlainStore } by { index_coded },
}

// A handle owns the index at its pointer, and the right to free it. It has no `also_shares`, with which a `&` to it could be read
// through: an export may not take a type that has it. So an export that only reads takes a `&mut` too.
impl Model for IndexHandle {
    ghost also_owns = { λ h. handle_owns h.alloc h.at h.value };
}

// So another thread may use it: an index is plain data.
unsafe impl Send for IndexHandle {}

impl IndexHandle {
    ghost use Rattle.std.specs.Borrow.{sem};
    ghost use Rattle.blink_c.specs.IndexLending.{LendsValue};

    /// Takes the box back out of the handle.
    pub(crate) fn into_box(self) -> Box<Index>
        ensures { result.value ≡ self.value }
    {
        let IndexHandle { at, alloc } = self;
        unsafe { Box::from_raw(alloc, at.cast::<Index>()) }
    }

    /// Lends the index for as long as the handle is borrowed.
    pub(crate) fn get(&mut self) -> &mut Index
        ensures* writes_back { sem 𝓛 (LendsValue self.entry result) }
        ensures value { result.now ≡ self.old.value }
    {
        unsafe { &mut *self.at.cast::<Index>() }
    }
}
