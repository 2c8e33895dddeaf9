//! The handle of a map.
ghost use Rattle.std.specs.Prelude.{◌≡◌};
ghost use Rattle.blink_handles.specs.declared.map_owner.MapOwner.{MapOwner};
ghost use Rattle.blink_c.specs.MapOwned.{handle_owns, map_coded};

use blink_handles::map_owner::MapOwner;
use std::alloc::Global;
use std::marker::Model;

/// What the caller holds of a map: a pointer alone, since a `Global` takes no bytes.
#[repr(C)]
pub struct MapHandle {
    at: *mut u8,
    alloc: Global,
    pub ghost value: { MapOwner } by { map_coded },
}

// A handle owns the map at its pointer, and the right to free it.
impl Model for MapHandle {
    ghost also_owns = { λ h. handle_owns h.alloc h.at h.value };
}

// So another thread may use it: a session is plain data, and an `Arc` counts by atomics.
unsafe impl Send for MapHandle {}

impl MapHandle {
    ghost use Rattle.std.specs.Borrow.{sem};
    ghost use Rattle.blink_c.specs.MapLending.{LendsValue};

    /// Takes the box back out of the handle.
    pub(crate) fn into_box(self) -> Box<MapOwner>
        ensures { result.value ≡ self.value }
    {
        let MapHandle { at, alloc } = self;
        unsafe { Box::from_raw(alloc, at.cast::<MapOwner>()) }
    }

    /// Lends the map for as long as the handle is borrowed.
    pub(crate) fn get(&mut self) -> &mut MapOwner
        ensures* writes_back { sem 𝓛 (LendsValue self.entry result) }
        ensures value { result.now ≡ self.old.value }
    {
        unsafe { &mut *self.at.cast::<MapOwner>() }
    }
}
