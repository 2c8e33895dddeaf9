//! What a session has beside its place: a seat of the tree's table, and the rows and page numbers that it may still use; also
//! while an operation is under way.
ghost use Rattle.std.specs.Prelude.{◌≡◌, ◌≢◌, ◌<◌, ◌≤◌, [], None};
ghost use Rattle.blink_live.specs.declared.view.Role.TheVariants.{Pass};
ghost use Rattle.blink_live.specs.{IsCommon, IsShelved, IsShelved-prop, KnowsAuthors};

use atomic_table::Seat;
use blink_live::{Room, View};
use blink_machine::Resting;
use blink_rows::Span;

/// The fields lie as they stand here. What each call writes comes first, and last what few calls touch: where members lie side by side, as
/// the sessions of a growing map do, no line of the processor's cache has what two of them write in each call.
#[derive(Drop)]
pub(crate) struct Member {
    pub seat: Seat<u8, View>,
    // The number of its place in the tree's table.
    pub place: u64,
    // The mark that its place had last while it worked.
    pub mark: u64,
    pub rows: Span,
    pub pages: Span,
    // What an operation of the member may use, which is aimed at each one as it begins, and not moved. Between operations its shelf
    // alone counts: the rows that the member's changes have taken out, and their way back.
    pub room: Room,
    ghost rows_are: { rows ≡ seat.me.0.rows },
    ghost pages_are: { pages ≡ seat.me.0.pages },
    ghost place_is: { (place ≡ seat.me.0.place) × (place < seat.me.0.plan.places) },
    ghost in_order: { (rows.next ≤ rows.stop) × (pages.next ≤ pages.stop) },
    ghost role_is: { seat.me.0.role ≡ Pass },
    ghost common: { IsCommon seat.me.0.plan },
    ghost no_key: { seat.me.0.share.keys ≡ [] },
    ghost none_told: { seat.me.0.told ≡ [] },
    ghost idle: { seat.me.0.operation ≡ None },
    ghost rests: { seat.me.0.busy ≡ 0 },
    ghost authors: { KnowsAuthors seat.me.0 },
    ghost no_slot: { seat.me.1 ≡ [] },
    ghost shelved: { IsShelved room.shelf seat.me.0 } by { IsShelved-prop room.shelf seat.me.0 },
}

/// An operation of a member that has begun, and what the member has. The operation may still use what is in `room`.
#[derive(Drop)]
pub(crate) struct UnderWay {
    pub seat: Seat<u8, View>,
    // What the member had when the operation began: the first of these are the operation's.
    pub rows: Span,
    pub pages: Span,
    pub place: u64,
    pub machine: Resting,
    pub room: Room,
    pub mark: u64,
}

/// The mark of a place whose operation rests: the session reads nothing.
pub(crate) const REST: u64 = 1;

// The least mark of a session at work.
const WORK: u64 = 2;

/// The mark for a session that begins to work. It is another one than the last. Another session whose rows wait looks at each place
/// twice: where it finds two marks, this session has ended the call that may read the rows. Were the mark the same in each call, the
/// rows would wait for as long as this session makes one call after another.
pub(crate) fn next_mark(mark: &mut u64) -> u64
    ensures works { 2 ≤ result }
    ensures other { result ≢ mark.old }
    ensures kept { mark.new ≡ result }
{
    *mark = mark.wrapping_add(1).max(WORK);
    *mark
}
