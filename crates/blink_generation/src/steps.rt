//! The atomic steps that only a map's seats take: a session's seat marks its place, takes back what a call hasn't used, and brings
//! rows back that it has taken out.
ghost use Rattle.std.specs.Prelude.{◌≡◌, ◌⊎◌, ◌+◌, ◌<◌, ◌≤◌, ℕ, None, suc, [], length};
ghost use Rattle.blink_live.specs.{CanGiveBack, ChecksPlace, HasSameNumber, IsPassSeat, KnowsAuthors, begins_to_wait, frees_last, gets_waiting, gives_back, is_busy, sees_mark, with_stock};

use crate::common::PLACE_WORDS;
use atomic_table::{Play, Seat};
use blink_live::{
    BeginWait, CheckPlace, Collect, FreeRow, GiveBack, Live, MarkPlace, SeePlace, View, word_count,
};

/// The compare-and-exchange in the pool's second word of a page number for a later one: the numbers between follow those that the
/// seat has, and it has both.
pub(crate) struct JoinPages;

impl Play<u8, View> for JoinPages {
    ghost use Rattle.blink_generation.specs.Drawing.{joins_pages};

    ghost then = { joins_pages };
}

/// Stores the mark of a session's seat into the word of its place: 0 if it is idle. It isn't 0 while the seat has an operation
/// under way. The call also shows that the seat has seen all changes of its own.
pub(crate) fn mark_place(live: &Live, seat: &mut Seat<u8, View>, place: u64, busy: u64)
    requires seat { IsPassSeat live.now seat.old.table_id seat.old.me }
    requires place { (place ≡ seat.old.me.0.place) × (place < live.now.places) }
    requires idle { (seat.old.me.0.operation ≡ None) ⊎ (1 ≤ busy) }
    ensures same { HasSameNumber seat.old seat.new }
    ensures marked { seat.new.me ≡ (is_busy seat.old.me.0 busy, seat.old.me.1) }
    ensures authors { KnowsAuthors seat.old.me.0 }
{
    // Called for the proof: a place in the table is a `usize`.
    let _count = live.table.word_count();
    let start = word_count(&live.counts);
    live.table
        .shared
        .store::<MarkPlace>(seat, start + PLACE_WORDS * place as usize, busy);
}

/// The seat may use again what its last call hasn't used of its rows and page numbers.
pub(crate) fn give_back(live: &Live, seat: &mut Seat<u8, View>)
    requires seat { IsPassSeat live.now seat.old.table_id seat.old.me }
    requires can { CanGiveBack seat.old.me.0 }
    ensures same { HasSameNumber seat.old seat.new }
    ensures back { seat.new.me ≡ (gives_back seat.old.me.0, seat.old.me.1) }
{
    live.table.shared.load::<GiveBack>(seat, 0);
}

/// The rows that a session has taken out begin to wait. None of its rows waits before.
pub(crate) fn begin_wait(live: &Live, seat: &mut Seat<u8, View>)
    requires seat { IsPassSeat live.now seat.old.table_id seat.old.me }
    requires common { 1 ≤ live.now.places }
    requires none_waits { seat.old.me.0.stock.waiting ≡ [] }
    ensures same { HasSameNumber seat.old seat.new }
    ensures waits { seat.new.me
        ≡ (with_stock seat.old.me.0 (begins_to_wait seat.old.me.0.stock), seat.old.me.1) }
{
    live.table.shared.load::<BeginWait>(seat, 0);
}

/// Looks at the mark of a place for the first time since the wait began, and returns it. The places come in their order.
pub(crate) fn see_place(live: &Live, seat: &mut Seat<u8, View>, place: u64) -> u64
    requires seat { IsPassSeat live.now seat.old.table_id seat.old.me }
    requires next { place ≡ length seat.old.me.0.stock.before }
    requires in_range { place < live.now.places }
    ensures same { HasSameNumber seat.old seat.new }
    ensures seen { seat.new.me
        ≡ (with_stock seat.old.me.0 (sees_mark result seat.old.me.0.stock), seat.old.me.1) }
{
    // Called for the proof: a place in the table is a `usize`.
    let _count = live.table.word_count();
    let start = word_count(&live.counts);
    live.table
        .shared
        .load::<SeePlace>(seat, start + PLACE_WORDS * place as usize)
}

/// Looks at the mark of a place for the second time, and returns it. The session of the place is past if the place has no mark
/// now, or another one than at the first look. The places come in their order.
pub(crate) fn check_place(live: &Live, seat: &mut Seat<u8, View>, place: u64) -> u64
    requires seat { IsPassSeat live.now seat.old.table_id seat.old.me }
    requires next { place ≡ seat.old.me.0.stock.passed }
    requires seen { place < length seat.old.me.0.stock.before }
    requires in_range { place < live.now.places }
    ensures same { HasSameNumber seat.old seat.new }
    ensures checked { ChecksPlace seat.old.me result seat.new.me }
{
    // Called for the proof: a place in the table is a `usize`.
    let _count = live.table.word_count();
    let start = word_count(&live.counts);
    live.table
        .shared
        .load::<CheckPlace>(seat, start + PLACE_WORDS * place as usize)
}

/// The waiting rows are free: each place's session is past.
pub(crate) fn collect(live: &Live, seat: &mut Seat<u8, View>)
    requires seat { IsPassSeat live.now seat.old.table_id seat.old.me }
    requires common { 1 ≤ live.now.places }
    requires all_past { live.now.places ≤ seat.old.me.0.stock.passed }
    ensures same { HasSameNumber seat.old seat.new }
    ensures free { seat.new.me
        ≡ (with_stock seat.old.me.0 (gets_waiting seat.old.me.0.stock), seat.old.me.1) }
{
    live.table.shared.load::<Collect>(seat, 0);
}

/// The last row of the seat's span is a free one.
pub(crate) fn free_row(live: &Live, seat: &mut Seat<u8, View>)
    requires seat { IsPassSeat live.now seat.old.table_id seat.old.me }
    requires common { 1 ≤ live.now.places }
    requires some_row { seat.old.me.0.rows.next < seat.old.me.0.rows.stop }
    ensures same { HasSameNumber seat.old seat.new }
    ensures free { (row : ℕ) → seat.old.me.0.rows.stop ≡ suc row
        → seat.new.me ≡ (frees_last seat.old.me.0 row, seat.old.me.1) }
{
    live.table.shared.load::<FreeRow>(seat, 0);
}
