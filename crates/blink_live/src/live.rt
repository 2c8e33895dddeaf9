//! The types of a table: `Live` holds the tree, `Keeper` deals the passes, and with a `Pass` a thread reads and changes some
//! keys. A `Pending` is a pass's operation under way. These types stand apart from their calls, since the calls' contracts name
//! them.
ghost use Rattle.std.specs.Prelude.{◌≡◌, ◌+◌, ◌*◌, ◌≤◌, [], IsSorted, None};
ghost use Rattle.std.specs.Ordering.{nat_cmp};
ghost use Rattle.std.specs.List.Sorted.{IsStrictlyIncreasing};
ghost use Rattle.blink_page.specs.{IsFan};
ghost use Rattle.blink_live.specs.Words.{word_count};
ghost use Rattle.blink_live.specs.declared.view.Role.TheVariants.{Keeper, Pass};
ghost use Rattle.blink_live.specs.Allowed.{AreForChanges};
ghost use Rattle.blink_live.specs.Views.{IsOwned, SawItsOwn};

use crate::room::Room;
use crate::rule::InvariantOfTree;
use crate::view::{Opened, View};
use atomic_table::{Seat, Table};
use blink_machine::Resting;
use blink_rows::{Counts, Span};
use std::alloc::Global;
use std::snapshot::Snapshot;

/// A B-link tree in one table of words. Any number of threads share it without a global lock, each with passes of its own.
///
/// The table has three sections of words, in this order: a page word for each page number, a latch word for each number, and the
/// rows. A page word names the row of the page's present version, or is 0. Between any two atomic steps of any threads the words
/// hold a tree state for which the invariant holds (`specs/Rule.antt`).
#[derive(Drop)]
pub struct Live {
    // Open to the crate of maps, which takes atomic steps of its own. The clauses below bind whoever makes a table.
    pub table: Table<u8, View, Opened, InvariantOfTree, Global>,
    pub counts: Counts,
    pub fan: u8,
    // 0 where passes own the keys; else the number of places for sessions.
    pub places: u64,
    ghost counts_are: { counts ≡ table.shared.key.counts },
    ghost fan_is: { (fan ≡ table.shared.key.index.value.fan) × IsFan fan },
    ghost some_number: { 1 ≤ counts.numbers },
    ghost no_slot: { table.shared.table_id.slots ≡ 0 },
    ghost places_are: { places ≡ table.shared.key.places },
    ghost width: { table.shared.table_id.words ≡ word_count counts + 8 * places },
}

/// The right to deal a table's passes, to take them back, and to close the table when all are back. It holds the keys of the
/// passes that are out, in ascending order and each once, the rows and the page numbers that weren't dealt, and the numbers of
/// passes dealt and of passes taken back.
#[derive(Drop)]
pub struct Keeper {
    pub(crate) seat: Seat<u8, View>,
    pub(crate) taken: Vec<u64>,
    pub(crate) rows: Span,
    pub(crate) pages: Span,
    pub(crate) dealt: u32,
    pub(crate) back: u32,
    ghost taken_are: { taken.items ≡ seat.me.0.taken },
    ghost rows_are: { rows ≡ seat.me.0.rows },
    ghost pages_are: { pages ≡ seat.me.0.pages },
    ghost in_order: { (rows.next ≤ rows.stop) × (pages.next ≤ pages.stop) },
    ghost for_changes: { AreForChanges pages rows },
    ghost ascending: { IsStrictlyIncreasing taken.items },
    ghost role_is: { seat.me.0.role ≡ Keeper dealt back },
    ghost counted: { back ≤ dealt },
    ghost owned: { IsOwned seat.me.0.plan },
    ghost no_slot: { seat.me.1 ≡ [] },
}

/// The right to read and change some keys of a table, which no other pass has. It holds its keys, in ascending order and each
/// once, and the rows and page numbers that it may still use.
#[derive(Drop)]
pub struct Pass {
    pub(crate) seat: Seat<u8, View>,
    pub(crate) keys: Vec<u64>,
    pub(crate) rows: Span,
    pub(crate) pages: Span,
    ghost keys_are: { keys.items ≡ seat.me.0.share.keys },
    ghost ascending: { IsStrictlyIncreasing keys.items },
    ghost rows_are: { rows ≡ seat.me.0.rows },
    ghost pages_are: { pages ≡ seat.me.0.pages },
    ghost in_order: { (rows.next ≤ rows.stop) × (pages.next ≤ pages.stop) },
    ghost for_changes: { AreForChanges pages rows },
    ghost role_is: { seat.me.0.role ≡ Pass },
    ghost owned: { IsOwned seat.me.0.plan },
    ghost own_seen: { SawItsOwn seat.me.0 },
    ghost none_told: { seat.me.0.told ≡ [] },
    ghost idle: { seat.me.0.operation ≡ None },
    ghost no_slot: { seat.me.1 ≡ [] },
}

/// An insertion, a deletion or a replacement that has begun, with the pass that makes it. `Live::advance` takes its next steps.
///
/// The pass comes back when the operation has ended. A `Pending` that is dropped costs its pass, as a dropped pass does: `close`
/// is then refused with `Missing`, and nobody gets the pass's keys, rows and page numbers again. What the operation has written
/// stays, its change of the pass's share too, if it has made it. An operation waits only while it holds no page's latch, so no
/// latch stays held and nobody waits for it.
#[derive(Drop)]
pub struct Pending {
    pub(crate) now: UnderWay,
    // The pass before the operation.
    pub(crate) begun: Snapshot<Pass>,
}

/// An operation that has begun, and the parts of its pass. The operation may still use what is in `room`.
#[derive(Drop)]
pub(crate) struct UnderWay {
    pub seat: Seat<u8, View>,
    pub keys: Vec<u64>,
    pub rows: Span,
    pub pages: Span,
    pub machine: Resting,
    pub room: Room,
}
