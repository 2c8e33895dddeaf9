//! Opening a map over an index.
ghost use Rattle.std.specs.Prelude.{◌≡◌, ◌⊎◌, ◌↔◌, ◌+◌, ◌++◌, ◌<◌, ◌≤◌, [], ◌∷◌, All, IfErr, IfOk, OnOk, IsErrOf, length};
ghost use Rattle.blink_live.specs.{no_stock, stock_of};
ghost use Rattle.blink_generation.specs.Opening.{AreFirst, AreFirstSessions, IsFirstAt, IsHostWith};
ghost use Rattle.blink_generation.specs.Sessions.{IsSessionOf, IsOpenedWith, IsTooLarge};

use crate::change::room_with;
use crate::common::{Extent, open_common};
use crate::error::MapError;
use crate::map::{Map, Room, Session};
use crate::member::Member;
use atomic_table::Seat;
use blink_index::Index;
use blink_live::{Dealt, Live, Shelf, View};
use blink_page::MAX_PAGE;
use blink_rows::{MAX_ROWS_PER_INSERT, Span};
use std::alloc::{AllocError, Global};
use std::marker::Brand;

/// The greatest number of sessions of a map.
pub const MAX_SESSIONS: u32 = 256;

// The greatest number of rows that a session has: more would wait longer and serve no better.
const MOST_ROWS: u32 = 4096;

// And the least: an insertion may need so many.
const LEAST_ROWS: u32 = MAX_ROWS_PER_INSERT as u32;

impl Map {
    /// Opens a map over the index's tree, and returns it with its sessions, one for each place, in the order of their places. The
    /// index stays as it is. Nobody has seen a change of the new map, or made one. Sessions draw the rows and page numbers of `room`
    /// from a pool. Half of the rows are the sessions' in equal parts, of 44 rows at least and 4,096 at most. The others are for
    /// pages to come.
    ///
    /// The call refuses with `Sessions` exactly if there are to be none or more than 256; then with `TooLarge`, before it asks for
    /// memory, exactly if there aren't so many page numbers. It refuses with `OutOfMemory`, if memory was refused.
    pub fn open(alloc: Global, index: &Index, room: Room) -> Result<(Map, Vec<Session>), MapError>
        ensures opened { IfOk result (λ opened. IsOpenedWith index.now room opened.0) }
        ensures dealt { IfOk result (λ opened. AreFirstSessions opened.0 opened.1.items) }
        ensures its_own { IfOk result (λ opened. All (IsSessionOf opened.0) opened.1.items) }
        ensures sessions { IsErrOf result MapError.Sessions
            ↔ ((room.sessions ≡ 0) ⊎ (256 < room.sessions)) }
        ensures too_large { IsErrOf result MapError.TooLarge
            ↔ ((1 ≤ room.sessions) × (room.sessions ≤ 256) × IsTooLarge (length index.now.pages) room) }
        ensures refused { IfErr result (λ refusal. (refusal ≡ MapError.Sessions)
            ⊎ ((refusal ≡ MapError.TooLarge) ⊎ (refusal ≡ MapError.OutOfMemory))) }
    {
        let parts = room.sessions.max(1);
        Map::open_in_parts(alloc, index, room, parts)
    }

    /// Opens a map as `open` does, where half of the rows are the sessions' in so many parts, however many sessions there are: for a
    /// map with more sessions than are likely to be in use at a time. Where more sessions than parts make changes, one may find that the
    /// others have drawn all. Each has memory for the numbers of the rows of its part.
    ///
    /// The call refuses as `open` does.
    pub fn open_in_parts(
        alloc: Global,
        index: &Index,
        room: Room,
        parts: u32,
    ) -> Result<(Map, Vec<Session>), MapError>
        requires parts { 1 ≤ parts }
        ensures opened { IfOk result (λ opened. IsOpenedWith index.now room opened.0) }
        ensures dealt { IfOk result (λ opened. AreFirstSessions opened.0 opened.1.items) }
        ensures its_own { IfOk result (λ opened. All (IsSessionOf opened.0) opened.1.items) }
        ensures sessions { IsErrOf result MapError.Sessions
            ↔ ((room.sessions ≡ 0) ⊎ (256 < room.sessions)) }
        ensures too_large { IsErrOf result MapError.TooLarge
            ↔ ((1 ≤ room.sessions) × (room.sessions ≤ 256) × IsTooLarge (length index.now.pages) room) }
        ensures refused { IfErr result (λ refusal. (refusal ≡ MapError.Sessions)
            ⊎ ((refusal ≡ MapError.TooLarge) ⊎ (refusal ≡ MapError.OutOfMemory))) }
    {
        if room.sessions == 0 || room.sessions > MAX_SESSIONS {
            return Err(MapError::Sessions);
        }
        if u64::from(index.page_count()) + u64::from(room.pages) > u64::from(MAX_PAGE) {
            return Err(MapError::TooLarge);
        }
        let extent = Extent {
            pages: room.pages,
            rows: room.rows,
            places: room.sessions,
        };
        let Ok((live, mut host)) = open_common(alloc, index, extent) else {
            return Err(MapError::OutOfMemory);
        };
        let quota = quota_of(room.rows, parts);
        let Ok(sessions) = sessions(alloc, &live, &mut host, room.sessions, quota) else {
            return Err(MapError::OutOfMemory);
        };
        Ok((Map { live }, sessions))
    }
}

// The number of rows that each session has at most, if half of so many rows are theirs in so many parts.
fn quota_of(rows: u32, parts: u32) -> u32
    requires some { 1 ≤ parts }
{
    (rows / 2 / parts).clamp(LEAST_ROWS, MOST_ROWS)
}

// Deals the sessions of all places. None has a row or a page number yet. Its shelf has room for so many rows as the session may
// have, and for those that one operation takes out beside.
fn sessions(
    alloc: Global,
    live: &Live,
    host: &mut Seat<u8, View>,
    count: u32,
    quota: u32,
) -> Result<Vec<Session>, AllocError>
    requires host { IsHostWith live.now host.old 0 }
    requires places { live.now.places ≡ count }
    ensures { IfOk result (λ sessions. AreFirst live.now count sessions.items) }
{
    let mut sessions = Vec::with_capacity(alloc, count as usize)?;
    for place in 0..u64::from(count) {
        let shelf = shelf_with_room(alloc, room_for(quota), count as usize)?;
        let member = admit::<Brand>(live, host, place, shelf);
        let Ok(()) = push(&mut sessions, Session { member }) else {
            return Err(AllocError);
        };
    }
    Ok(sessions)
}

// An empty shelf with room for so many rows of each kind, and for the marks of so many places.
fn shelf_with_room(alloc: Global, rows: usize, places: usize) -> Result<Shelf, AllocError>
    ensures { IfOk result (λ shelf. stock_of shelf ≡ no_stock) }
{
    Ok(Shelf {
        free: Vec::with_capacity(alloc, rows)?,
        retired: Vec::with_capacity(alloc, rows)?,
        waiting: Vec::with_capacity(alloc, rows)?,
        before: Vec::with_capacity(alloc, places)?,
        passed: 0,
        spare: Span { next: 1, stop: 1 },
    })
}

// How many rows of each kind a shelf has room for, whose session has so many at most.
fn room_for(quota: u32) -> usize {
    quota as usize + LEAST_ROWS as usize
}

// Adds a session at the end.
fn push(sessions: &mut Vec<Session>, session: Session) -> Result<(), AllocError>
    ensures { OnOk result (sessions.new.items ≡ sessions.old.items ++ session ∷ []) }
{
    match sessions.push(session) {
        Ok(()) => Ok(()),
        Err(_) => Err(AllocError),
    }
}

// Deals one more member, of the next place.
fn admit<B: Dealt>(live: &Live, host: &mut Seat<u8, View>, place: u64, shelf: Shelf) -> Member
    requires host { IsHostWith live.now host.old place }
    requires picked { ([] ≡ B.keys) × ([] ≡ B.taken) × (0 ≡ B.rows) × (0 ≡ B.pages) }
    requires in_range { place < live.now.places }
    requires empty { stock_of shelf ≡ no_stock }
    ensures host { IsHostWith live.now host.new (place + 1) }
    ensures member { IsFirstAt live.now place result }
{
    let seat = live.split_seat::<B>(host, &[], &[], 0, 0);
    Member {
        seat,
        rows: Span { next: 1, stop: 1 },
        pages: Span { next: 1, stop: 1 },
        place,
        room: room_with(shelf),
        mark: 0,
    }
}
