//! Opening a growing map.
ghost use Rattle.std.specs.Prelude.{◌≡◌, ◌≤◌, ◌++◌, [], ◌∷◌, Some, All, IfErr, IfOk, IsFalse, IsTrue, OnOk, length, replicate};
ghost use Rattle.std.specs.Arc.{arc_value};
ghost use Rattle.blink_index.specs.{map_of};
ghost use Rattle.blink_generation.specs.{opening_of as opening_of_map, places_of as places_of_map};
ghost use Rattle.blink_map.specs.Laid.{AreFirst, AreLaid};
ghost use Rattle.blink_map.specs.Opening.{AreFirstSessions, HasBadSessions, WhyNotInRoom, WhyNotOpened, dealer};
ghost use Rattle.blink_map.specs.declared.error.GrowError.TheVariants.{OutOfMemory, Sessions};
ghost use Rattle.blink_map.specs.Sessions.{IsSessionOf, is_fixed, opening_of, places_of};

use crate::error::GrowError;
use crate::growing::{GrowingMap, Session};
use crate::room::{parts_for, room_over};
use crate::slots::{Current, Origin, PartWithFirst, RuleOfSlots, SLOT_WORDS, SlotView};
use crate::worn::{FirstCounts, had_at_first};
use atomic_table::{Seat, Table};
use blink_generation::{Map, MapError, Room};
use blink_index::Index;
use blink_page::MAX_FAN;
use std::alloc::{AllocError, Global};
use std::snapshot::Snapshot;
use std::sync::Arc;
use std::sync::atomic::{AtomicBool, AtomicU64};

// The greatest number of sessions.
const MAX_SESSIONS: u32 = 256;

impl GrowingMap {
    /// Opens an empty map with so many sessions, in the order of their places. Nobody has seen a change of it, or made one.
    ///
    /// The call refuses with `Sessions`, if there are to be none or more than 256; and with `OutOfMemory`, if memory was refused.
    pub fn new(alloc: Global, sessions: u32) -> Result<(GrowingMap, Vec<Session>), GrowError>
        ensures opened { IfOk result (λ opened. opening_of opened.0 ≡ []) }
        ensures places { IfOk result (λ opened. places_of opened.0 ≡ sessions) }
        ensures dealt { IfOk result (λ opened. AreFirstSessions opened.0 opened.1.items) }
        ensures its_own { IfOk result (λ opened. All (IsSessionOf opened.0) opened.1.items) }
        ensures grows { IfOk result (λ opened. IsFalse (is_fixed opened.0)) }
        ensures sessions { IfErr result (λ refusal. refusal ≡ Sessions → HasBadSessions sessions) }
    {
        match Index::new(alloc, MAX_FAN as u8) {
            Ok(index) => GrowingMap::open(alloc, &index, sessions),
            Err(_) => Err(GrowError::OutOfMemory),
        }
    }

    /// Opens a map over the index's tree, with so many sessions, in the order of their places. The index stays as it is. Nobody has seen
    /// a change of the new map, or made one.
    ///
    /// The map has room for the changes of four sessions, or of all, if there are fewer. When it is renewed, it has room for those that have
    /// made changes since it was renewed last, and at least for so many as at first. So sessions that nobody uses take little memory.
    ///
    /// The call refuses with `Sessions`, if there are to be none or more than 256; with `TooLarge`, if the index leaves too few of the
    /// 1,048,575 page numbers; and with `OutOfMemory`, if memory was refused.
    pub fn open(
        alloc: Global,
        index: &Index,
        sessions: u32,
    ) -> Result<(GrowingMap, Vec<Session>), GrowError>
        ensures opened { IfOk result (λ opened. opening_of opened.0 ≡ map_of index.now) }
        ensures places { IfOk result (λ opened. places_of opened.0 ≡ sessions) }
        ensures dealt { IfOk result (λ opened. AreFirstSessions opened.0 opened.1.items) }
        ensures its_own { IfOk result (λ opened. All (IsSessionOf opened.0) opened.1.items) }
        ensures grows { IfOk result (λ opened. IsFalse (is_fixed opened.0)) }
        ensures refused { IfErr result (WhyNotOpened (length index.now.pages) sessions) }
    {
        if sessions == 0 || sessions > MAX_SESSIONS {
            return Err(GrowError::Sessions);
        }
        let parts = parts_for(0, sessions);
        match room_over(index.page_count(), sessions, parts) {
            Some(room) => {
                let parted = Room {
                    pages: room.pages,
                    rows: room.rows,
                    sessions: parts,
                };
                GrowingMap::open_in(alloc, index, parted, sessions, false)
            }
            None => Err(GrowError::TooLarge),
        }
    }

    /// Opens a map as `open` does, with this room for its first changes, and so many sessions. Where a change finds too little of it left,
    /// the map is renewed, and has the room then that any growing map has of its entries.
    ///
    /// The call refuses with `Sessions`, if there are to be none or more than 256; with `TooLarge`, if the room's page numbers and the pages
    /// of the index are more than 1,048,575; and with `OutOfMemory`, if memory was refused.
    pub fn open_with_room(
        alloc: Global,
        index: &Index,
        room: Room,
    ) -> Result<(GrowingMap, Vec<Session>), GrowError>
        ensures opened { IfOk result (λ opened. opening_of opened.0 ≡ map_of index.now) }
        ensures places { IfOk result (λ opened. places_of opened.0 ≡ room.sessions) }
        ensures dealt { IfOk result (λ opened. AreFirstSessions opened.0 opened.1.items) }
        ensures its_own { IfOk result (λ opened. All (IsSessionOf opened.0) opened.1.items) }
        ensures grows { IfOk result (λ opened. IsFalse (is_fixed opened.0)) }
        ensures refused { IfErr result (WhyNotInRoom (length index.now.pages) room) }
    {
        GrowingMap::open_for_all(alloc, index, room, false)
    }

    /// Opens a map as `open_with_room` does, whose room stays fixed: the map is never renewed, so no call waits for a copy. Where a change
    /// finds too little room left, it is refused with `Full`, and other calls go on.
    pub fn open_fixed(
        alloc: Global,
        index: &Index,
        room: Room,
    ) -> Result<(GrowingMap, Vec<Session>), GrowError>
        ensures opened { IfOk result (λ opened. opening_of opened.0 ≡ map_of index.now) }
        ensures places { IfOk result (λ opened. places_of opened.0 ≡ room.sessions) }
        ensures dealt { IfOk result (λ opened. AreFirstSessions opened.0 opened.1.items) }
        ensures its_own { IfOk result (λ opened. All (IsSessionOf opened.0) opened.1.items) }
        ensures fixed { IfOk result (λ opened. IsTrue (is_fixed opened.0)) }
        ensures refused { IfErr result (WhyNotInRoom (length index.now.pages) room) }
    {
        GrowingMap::open_for_all(alloc, index, room, true)
    }

    // Opens a map with this room for all its sessions.
    fn open_for_all(
        alloc: Global,
        index: &Index,
        room: Room,
        fixed: bool,
    ) -> Result<(GrowingMap, Vec<Session>), GrowError>
        ensures opened { IfOk result (λ opened. opening_of opened.0 ≡ map_of index.now) }
        ensures places { IfOk result (λ opened. places_of opened.0 ≡ room.sessions) }
        ensures dealt { IfOk result (λ opened. AreFirstSessions opened.0 opened.1.items) }
        ensures its_own { IfOk result (λ opened. All (IsSessionOf opened.0) opened.1.items) }
        ensures room { IfOk result (λ opened. is_fixed opened.0 ≡ fixed) }
        ensures refused { IfErr result (WhyNotInRoom (length index.now.pages) room) }
    {
        if room.sessions > MAX_SESSIONS {
            return Err(GrowError::Sessions);
        }
        GrowingMap::open_in(alloc, index, room, room.sessions, fixed)
    }

    /// Opens a map with so many places as `open_fixed` does, if its room is to be fixed, and as `open_with_room` otherwise. The room is for
    /// the changes of `room.sessions` sessions: half of its rows are the sessions' in so many parts. Where more sessions make changes, one may
    /// find that the others have drawn all. Then a map that grows is renewed, and one whose room is fixed refuses the change with `Full`.
    ///
    /// The call refuses as `open_with_room` does.
    pub fn open_in(
        alloc: Global,
        index: &Index,
        room: Room,
        places: u32,
        fixed: bool,
    ) -> Result<(GrowingMap, Vec<Session>), GrowError>
        requires room { room.sessions ≤ places }
        requires few { places ≤ 256 }
        ensures opened { IfOk result (λ opened. opening_of opened.0 ≡ map_of index.now) }
        ensures places { IfOk result (λ opened. places_of opened.0 ≡ places) }
        ensures dealt { IfOk result (λ opened. AreFirstSessions opened.0 opened.1.items) }
        ensures its_own { IfOk result (λ opened. All (IsSessionOf opened.0) opened.1.items) }
        ensures room { IfOk result (λ opened. is_fixed opened.0 ≡ fixed) }
        ensures refused { IfErr result (WhyNotInRoom (length index.now.pages) room) }
    {
        if room.sessions == 0 {
            return Err(GrowError::Sessions);
        }
        let whole = Room {
            pages: room.pages,
            rows: room.rows,
            sessions: places,
        };
        let counts = FirstCounts {
            had: had_at_first(index.len(), room.sessions),
            numbers: u64::from(index.page_count()) + u64::from(room.pages),
        };
        let (map, first) = match Map::open_in_parts(alloc, index, whole, room.sessions) {
            Ok(opened) => opened,
            Err(MapError::Sessions) => return Err(GrowError::Sessions),
            Err(MapError::TooLarge) => return Err(GrowError::TooLarge),
            Err(_) => return Err(GrowError::OutOfMemory),
        };
        let Ok(map) = Arc::new(alloc, map) else {
            return Err(GrowError::OutOfMemory);
        };
        let Ok(slots) = lay(alloc, &map, first) else {
            return Err(GrowError::OutOfMemory);
        };
        let (map, mut seat) = table_of(alloc, index, slots, counts, fixed)?;
        let Ok(sessions) = map.deal(alloc, &mut seat) else {
            return Err(GrowError::OutOfMemory);
        };
        Ok((map, sessions))
    }

    // Deals all sessions.
    fn deal(
        &self,
        alloc: Global,
        seat: &mut Seat<Option<Current>, SlotView>,
    ) -> Result<Vec<Session>, AllocError>
        requires its_own { seat.old.table_id ≡ self.now.table.shared.table_id }
        requires first { seat.old.me ≡ (dealer (opening_of self.now) (places_of self.now) 0, []) }
        ensures { IfOk result (λ sessions. AreFirstSessions self.now sessions.items) }
    {
        let mut sessions = Vec::new(alloc);
        for slot in 0..self.table.slot_count() {
            let own = self.table.shared.split_seat::<PartWithFirst>(seat);
            push(&mut sessions, Session { seat: own, slot })?;
        }
        Ok(sessions)
    }
}

// The table over these slots, and the seat that has all sessions. The map in them begins to count so.
fn table_of(
    alloc: Global,
    index: &Index,
    slots: Vec<Option<Current>>,
    counts: FirstCounts,
    fixed: bool,
) -> Result<(GrowingMap, Seat<Option<Current>, SlotView>), GrowError>
    requires some { 1 ≤ length slots.items }
    requires few { length slots.items ≤ 256 }
    requires laid { (map : Map) × (opening_of_map map ≡ map_of index.now)
        × (places_of_map map ≡ length slots.items) × AreLaid map slots.items }
    ensures opened { IfOk result (λ opened. opening_of opened.0 ≡ map_of index.now) }
    ensures places { IfOk result (λ opened. places_of opened.0 ≡ length slots.items) }
    ensures its_own { IfOk result (λ opened. opened.1.table_id ≡ opened.0.table.shared.table_id) }
    ensures first { IfOk result
        (λ opened. opened.1.me ≡ (dealer (opening_of opened.0) (places_of opened.0) 0, [])) }
    ensures room { IfOk result (λ opened. is_fixed opened.0 ≡ fixed) }
    ensures refused { IfErr result (λ refusal. refusal ≡ OutOfMemory) }
{
    let count = slots.len();
    let Ok(words) = zeros(alloc, SLOT_WORDS * count) else {
        return Err(GrowError::OutOfMemory);
    };
    let origin = Origin {
        index: Snapshot::of(index),
        slots: count as u64,
    };
    match Table::<Option<Current>, SlotView, Origin, RuleOfSlots, Global>::new(
        alloc, &words, slots, &origin,
    ) {
        Ok((table, seat)) => Ok((
            GrowingMap {
                table,
                fan: index.rest().store().fan(),
                fixed,
                renewing: AtomicBool::new(false),
                gathering: AtomicBool::new(false),
                had: AtomicU64::new(counts.had),
                removed: AtomicU64::new(0),
                numbers: AtomicU64::new(counts.numbers),
            },
            seat,
        )),
        Err(_) => Err(GrowError::OutOfMemory),
    }
}

// Lays the sessions of a map into slots, in their order.
fn lay(
    alloc: Global,
    map: &Arc<Map>,
    mut sessions: Vec<blink_generation::Session>,
) -> Result<Vec<Option<Current>>, AllocError>
    requires first { AreFirst (arc_value map.now) sessions.items }
    ensures laid { IfOk result (λ slots. AreLaid (arc_value map.now) slots.items) }
    ensures width { IfOk result (λ slots. length slots.items ≡ length sessions.items) }
{
    let mut slots = Vec::new(alloc);
    // They are taken from the end, so that none of the others moves.
    sessions.reverse();
    while let Some(session) = sessions.pop() {
        let owner = Arc::try_clone(map)?;
        let held = Current {
            map: owner,
            session,
            number: 0,
            changes: 0,
        };
        lay_one(&mut slots, held)?;
    }
    Ok(slots)
}

// Adds a slot at the end.
fn lay_one(slots: &mut Vec<Option<Current>>, held: Current) -> Result<(), AllocError>
    ensures { OnOk result (slots.new.items ≡ slots.old.items ++ Some held ∷ []) }
{
    match slots.push(Some(held)) {
        Ok(()) => Ok(()),
        Err(_) => Err(AllocError),
    }
}

// Adds a session at the end.
fn push(sessions: &mut Vec<Session>, session: Session) -> Result<(), AllocError>
    ensures { OnOk result (sessions.new.items ≡ sessions.old.items ++ session ∷ []) }
{
    match sessions.push(session) {
        Ok(()) => Ok(()),
        Err(_) => Err(AllocError),
    }
}

// So many words of free slots.
fn zeros(alloc: Global, count: usize) -> Result<Vec<u64>, AllocError>
    ensures { IfOk result (λ words. words.items ≡ replicate count 0) }
{
    vec![in alloc; 0u64; count]
}
