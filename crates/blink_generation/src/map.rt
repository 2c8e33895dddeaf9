//! The types of a map: `Map` holds the tree, and with a `Session` a thread reads and changes any key. A `Pending` is a session's
//! operation under way.
ghost use Rattle.std.specs.Prelude.{◌≤◌};

use crate::member::{Member, UnderWay};
use blink_live::Live;
use std::snapshot::Snapshot;

/// What a map has beside its entries: page numbers and rows for the changes to come, and places for sessions.
#[derive(Clone, Copy)]
pub struct Room {
    pub pages: u32,
    pub rows: u32,
    pub sessions: u32,
}

/// A map from `u64` to `u64`, which any number of threads read and change without a global lock, each by sessions of its own.
///
/// Most changes are appended to the row of their page. One that finds no room there writes another row, and takes the row before out
/// of the tree. That comes back to its session once no session can still read it, and is written again. So a map with two rows for
/// each page number, and a few hundred for each session, takes changes as long as its page numbers last. Half of the rows are the
/// sessions' in equal parts, of 44 rows at least and 4,096 at most, so that a session which comes late finds its own. While another
/// session is held up in the midst of a call, no row comes back, and one that has too few left waits, or is refused where its call
/// waits for nobody.
#[derive(Drop)]
pub struct Map {
    pub(crate) live: Live,
    ghost common: { 1 ≤ live.places },
}

/// The right of one thread to read and change a map. There is one session for each of the map's places, and nobody else makes
/// changes at its place. A session that is dropped costs its place.
#[derive(Drop)]
pub struct Session {
    pub(crate) member: Member,
}

/// An insertion, a deletion or a replacement that has begun, with the session that makes it. `Map::advance` takes its next steps.
///
/// The session comes back when the operation has ended. Until then its place stays marked. So a `Pending` that is dropped costs the
/// session's place. It reads nothing while it rests, so it holds no row back. What the operation has written stays, its change too, if
/// it has made it. An operation waits only while it holds no page's latch, so no latch stays held and nobody waits for it.
#[derive(Drop)]
pub struct Pending {
    pub(crate) now: UnderWay,
    // The session before the operation.
    pub(crate) begun: Snapshot<Session>,
}

/// Why an operation hasn't ended at once.
#[derive(Drop)]
pub enum Stopped {
    /// It has begun, and waits.
    Waits(Pending),
    /// The session lacks the room that the operation may need.
    Full(Session),
}
