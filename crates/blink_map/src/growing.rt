//! The types of a growing map: `GrowingMap`, and a `Session`, with which a thread reads and changes any key.
ghost use Rattle.std.specs.Prelude.{◌≡◌, ◌<◌, ◌≤◌};
ghost use Rattle.blink_page.specs.{IsFan};
ghost use Rattle.blink_map.specs.Own.{IsIdle, KnowsAuthors};
ghost use Rattle.blink_map.specs.Rule.{word_of};

use crate::error::GrowError;
use crate::slots::{Current, Origin, RuleOfSlots, SlotView};
use atomic_table::{Seat, Table};
use std::alloc::Global;
use std::sync::atomic::{AtomicBool, AtomicU64};

/// A map from `u64` to `u64` which grows. It is one map of `blink_generation` after another: where the current one is full, its entries are
/// packed, and another map is opened over them with more room. Changes wait meanwhile. Searches go on, and wait only while the sessions
/// are gathered, before the entries are copied and after: that takes microseconds, unless a session is in a long call. One session is
/// with the renewal until the next map is there, and its searches wait too: that of the thread which renews, or the first one.
///
/// A map that was opened with a fixed room (`open_fixed`) is never renewed, so no call waits for a copy. Where it is full, its changes are
/// refused.
#[derive(Drop)]
pub struct GrowingMap {
    pub(crate) table: Table<Option<Current>, SlotView, Origin, RuleOfSlots, Global>,
    pub(crate) fan: u8,
    // Whether the map keeps the room that it was opened with.
    pub(crate) fixed: bool,
    // Whether somebody renews the map. Renewals are one after another by it, and changes wait for them. No proof needs it: a renewal
    // counts the changes, and copies again where one was made.
    pub(crate) renewing: AtomicBool,
    // Whether a renewal gathers the sessions. It gets them before the next calls do, since searches wait too. No proof needs it.
    pub(crate) gathering: AtomicBool,
    // About how many entries the map has had since it was opened or renewed last, with a few more for each session that it has room for, and
    // how many of them were removed. No proof needs them.
    pub(crate) had: AtomicU64,
    pub(crate) removed: AtomicU64,
    // How many page numbers the current map has in all. No proof needs it.
    pub(crate) numbers: AtomicU64,
    ghost words: { table.shared.table_id.words ≡ word_of table.shared.table_id.slots },
    ghost some_slot: { 0 < table.shared.table_id.slots },
    ghost few_slots: { table.shared.table_id.slots ≤ 256 },
    ghost all_slots: { table.shared.key.slots ≡ table.shared.table_id.slots },
    ghost fan_is: { IsFan fan },
}

/// The right of one thread to read and change a map. There is one session for each of the map's places, and nobody else makes changes at
/// its place.
#[derive(Drop)]
pub struct Session {
    pub(crate) seat: Seat<Option<Current>, SlotView>,
    pub(crate) slot: usize,
    ghost idle: { IsIdle slot seat.me },
    ghost in_range: { slot < seat.table_id.slots },
    ghost all_slots: { seat.me.0.slots ≡ seat.table_id.slots },
    ghost authors: { KnowsAuthors slot seat.me.0 },
}

/// A growing map that wasn't closed, with the sessions that were given.
#[derive(Drop)]
pub struct Unclosed {
    pub map: GrowingMap,
    pub sessions: Vec<Session>,
    pub refusal: GrowError,
}
