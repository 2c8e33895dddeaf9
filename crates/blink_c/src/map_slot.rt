//! Where the caller gets the handle of a map.
ghost use Rattle.std.specs.Prelude.{◌≡◌, Option, Some};
ghost use Rattle.blink_handles.specs.declared.map_owner.MapOwner.{MapOwner};
ghost use Rattle.blink_c.specs.MapOwned.{slot_coded, slot_owns};

use crate::parts::Parts;
use blink_handles::map_owner::MapOwner;
use std::alloc::Global;
use std::marker::Model;

/// A place for a handle, laid out as one. The caller passes it empty, and has a `MapHandle` there once it is full.
#[repr(C)]
#[derive(Drop)]
pub struct MapSlot {
    at: *mut u8,
    alloc: Global,
    pub ghost value: { Option MapOwner } by { slot_coded },
}

// A full slot owns what a handle at its pointer owns, and an empty one nothing, whatever its pointer is.
impl Model for MapSlot {
    ghost also_owns = { λ s. slot_owns s.alloc s.at s.value };
}

impl MapSlot {
    /// A full slot.
    pub(crate) fn of(owner: Box<MapOwner>) -> MapSlot
        ensures { result.value ≡ Some owner.value }
    {
        MapSlot::of_parts(Parts::of(owner))
    }

    fn of_parts(parts: Parts<MapOwner, Global>) -> MapSlot
        ensures { result.value ≡ Some parts.value }
    {
        let Parts { ptr, alloc } = parts;
        MapSlot {
            at: ptr.cast::<u8>(),
            alloc,
        }
    }
}
