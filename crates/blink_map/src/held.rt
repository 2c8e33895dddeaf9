//! The types of a session that is held: `Held`, and a `PendingHeld`, which is its operation under way.
ghost use Rattle.std.specs.Prelude.{◌≡◌, ◌<◌, ◌↔◌, IsTrue};
ghost use Rattle.blink_generation.specs.{LacksRoomInAll};
ghost use Rattle.blink_map.specs.Held.{IsHeld};

use crate::slots::{Current, SlotView};
use atomic_table::Seat;
use blink_batch::Op;
use blink_generation::{Map, Pending};
use std::snapshot::Snapshot;
use std::sync::Arc;

/// A session that is held: it has its session of the current map at hand, so the calls on it wait for nobody. While a session is held the
/// map can't be renewed or closed, and nothing else waits for it. So a program holds a session for a few calls, and then releases it.
///
/// One that is dropped costs its place, and the map can never be renewed or closed again.
#[derive(Drop)]
pub struct Held {
    pub(crate) seat: Seat<Option<Current>, SlotView>,
    pub(crate) slot: usize,
    pub(crate) current: Current,
    ghost held: { IsHeld slot seat.me current },
    ghost in_range: { slot < seat.table_id.slots },
    ghost all_slots: { seat.me.0.slots ≡ seat.table_id.slots },
}

/// An insertion, a deletion or a replacement of a held session that has begun, with that session. `GrowingMap::advance` takes its next
/// steps. The session comes back when the operation has ended. Until then it is held, and one that is dropped costs the session.
#[derive(Drop)]
pub struct PendingHeld {
    pub(crate) seat: Seat<Option<Current>, SlotView>,
    pub(crate) slot: usize,
    pub(crate) map: Arc<Map>,
    pub(crate) number: u64,
    pub(crate) changes: u64,
    pub(crate) now: Pending,
    // The held session before the operation.
    pub(crate) begun: Snapshot<Held>,
}

/// Why an operation of a held session hasn't ended at once.
#[derive(Drop)]
pub enum StoppedHeld {
    /// It has begun, and waits.
    Waits(PendingHeld),
    /// The session lacks the room that the operation may need in the current map. The map is to be renewed, once the session is released,
    /// unless its room is fixed.
    Full(Held),
}

impl Held {
    /// Whether the session lacks the room that the operation may need in the current map, also once all its rows have come back.
    pub fn lacks_room_in_all(&self, op: Op) -> bool
        ensures { IsTrue result ↔ LacksRoomInAll op self.now.current.session }
    {
        self.current.session.lacks_room_in_all(op)
    }

    /// Returns the number of the current map: how often the map was renewed before. Who finds this map full tells `try_renew`.
    pub fn number(&self) -> u64 {
        self.current.number
    }
}
