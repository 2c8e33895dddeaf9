//! How a session brings rows onto its shelf: those that it has taken out, once they have come back, and those of its span.
ghost use Rattle.std.specs.Prelude.{◌≡◌, ◌+◌, ◌<◌, ◌≤◌, Some, [], IsTrue, length};
ghost use Rattle.blink_live.specs.{HasOtherRows, HasOtherStock, HasSameNumber, IsPassSeat, IsShelved, length_of, rows_on};

use crate::steps::{begin_wait, check_place, collect, free_row, see_place};
use atomic_table::Seat;
use blink_live::{Live, Shelf, View};
use blink_rows::Span;
use std::mem;

/// Brings rows that a session has taken out nearer to its free ones. At least `least` rows begin to wait together. They are
/// free once each place has been found reading nothing, or with another mark than where the wait began. The
/// call waits for nobody: it looks at each place once at most, beside the first looks.
pub(crate) fn recycle(live: &Live, seat: &mut Seat<u8, View>, shelf: &mut Shelf, least: usize)
    requires seat { IsPassSeat live.now seat.old.table_id seat.old.me }
    requires shelved { IsShelved (Some shelf.old) seat.old.me.0 }
    ensures same { HasSameNumber seat.old seat.new }
    ensures restocked { HasOtherStock seat.old.me seat.new.me }
    ensures shelved { IsShelved (Some shelf.new) seat.new.me.0 }
    ensures none_lost { rows_on (Some shelf.new) ≡ rows_on (Some shelf.old) }
    ensures free { shelf.old.free.len ≤ shelf.new.free.len }
{
    if shelf.waiting.is_empty() {
        if shelf.retired.len() < least {
            return;
        }
        start_wait(live, seat, shelf);
        see_places(live, seat, shelf);
    }
    check_places(live, seat, shelf);
    if shelf.passed == live.places {
        take_waiting(live, seat, shelf);
    }
}

// The rows that were taken out begin to wait.
fn start_wait(live: &Live, seat: &mut Seat<u8, View>, shelf: &mut Shelf)
    requires seat { IsPassSeat live.now seat.old.table_id seat.old.me }
    requires shelved { IsShelved (Some shelf.old) seat.old.me.0 }
    requires none_waits { shelf.old.waiting.items ≡ [] }
    ensures same { HasSameNumber seat.old seat.new }
    ensures restocked { HasOtherStock seat.old.me seat.new.me }
    ensures shelved { IsShelved (Some shelf.new) seat.new.me.0 }
    ensures none_lost { rows_on (Some shelf.new) ≡ rows_on (Some shelf.old) }
    ensures free { shelf.old.free.len ≤ shelf.new.free.len }
    ensures none_seen { shelf.new.before.items ≡ [] }
{
    mem::swap(&mut shelf.retired, &mut shelf.waiting);
    shelf.before.clear();
    shelf.passed = 0;
    begin_wait(live, seat);
}

// Looks at the mark of each place for the first time.
fn see_places(live: &Live, seat: &mut Seat<u8, View>, shelf: &mut Shelf)
    requires seat { IsPassSeat live.now seat.old.table_id seat.old.me }
    requires shelved { IsShelved (Some shelf.old) seat.old.me.0 }
    requires none_seen { shelf.old.before.items ≡ [] }
    ensures same { HasSameNumber seat.old seat.new }
    ensures restocked { HasOtherStock seat.old.me seat.new.me }
    ensures shelved { IsShelved (Some shelf.new) seat.new.me.0 }
    ensures none_lost { rows_on (Some shelf.new) ≡ rows_on (Some shelf.old) }
    ensures free { shelf.old.free.len ≤ shelf.new.free.len }
{
    for place in 0..live.places {
        if !note_mark(live, seat, shelf, place) {
            return;
        }
    }
}

// Looks at the mark of one place more for the first time, if there is room to note it.
fn note_mark(live: &Live, seat: &mut Seat<u8, View>, shelf: &mut Shelf, place: u64) -> bool
    requires seat { IsPassSeat live.now seat.old.table_id seat.old.me }
    requires shelved { IsShelved (Some shelf.old) seat.old.me.0 }
    requires next { place ≡ length shelf.old.before.items }
    requires in_range { place < live.now.places }
    ensures same { HasSameNumber seat.old seat.new }
    ensures restocked { HasOtherStock seat.old.me seat.new.me }
    ensures shelved { IsShelved (Some shelf.new) seat.new.me.0 }
    ensures none_lost { rows_on (Some shelf.new) ≡ rows_on (Some shelf.old) }
    ensures free { shelf.old.free.len ≤ shelf.new.free.len }
    ensures noted { IsTrue result → length shelf.new.before.items ≡ place + 1 }
{
    if shelf.before.len() == shelf.before.capacity() {
        return false;
    }
    let mark = see_place(live, seat, place);
    if shelf.before.push(mark).is_err() {
        unreachable!()
    }
    true
}

// Looks at the marks of the places for the second time, until it finds a session that isn't past.
fn check_places(live: &Live, seat: &mut Seat<u8, View>, shelf: &mut Shelf)
    requires seat { IsPassSeat live.now seat.old.table_id seat.old.me }
    requires shelved { IsShelved (Some shelf.old) seat.old.me.0 }
    ensures same { HasSameNumber seat.old seat.new }
    ensures restocked { HasOtherStock seat.old.me seat.new.me }
    ensures shelved { IsShelved (Some shelf.new) seat.new.me.0 }
    ensures none_lost { rows_on (Some shelf.new) ≡ rows_on (Some shelf.old) }
    ensures free { shelf.old.free.len ≤ shelf.new.free.len }
{
    for _ in 0..live.places {
        if !find_past(live, seat, shelf) {
            return;
        }
    }
}

// Looks at the mark of the next place for the second time, and returns whether its session is past.
fn find_past(live: &Live, seat: &mut Seat<u8, View>, shelf: &mut Shelf) -> bool
    requires seat { IsPassSeat live.now seat.old.table_id seat.old.me }
    requires shelved { IsShelved (Some shelf.old) seat.old.me.0 }
    ensures same { HasSameNumber seat.old seat.new }
    ensures restocked { HasOtherStock seat.old.me seat.new.me }
    ensures shelved { IsShelved (Some shelf.new) seat.new.me.0 }
    ensures none_lost { rows_on (Some shelf.new) ≡ rows_on (Some shelf.old) }
    ensures free { shelf.old.free.len ≤ shelf.new.free.len }
{
    let place = shelf.passed;
    if place >= live.places || place as usize >= shelf.before.len() {
        return false;
    }
    let mark = check_place(live, seat, place);
    if mark > 1 && mark == shelf.before[place as usize] {
        return false;
    }
    shelf.passed = place + 1;
    true
}

// The rows that waited are free, if there is room for them.
fn take_waiting(live: &Live, seat: &mut Seat<u8, View>, shelf: &mut Shelf)
    requires seat { IsPassSeat live.now seat.old.table_id seat.old.me }
    requires shelved { IsShelved (Some shelf.old) seat.old.me.0 }
    requires all_past { shelf.old.passed ≡ live.now.places }
    ensures same { HasSameNumber seat.old seat.new }
    ensures restocked { HasOtherStock seat.old.me seat.new.me }
    ensures shelved { IsShelved (Some shelf.new) seat.new.me.0 }
    ensures none_lost { rows_on (Some shelf.new) ≡ rows_on (Some shelf.old) }
    ensures free { shelf.old.free.len ≤ shelf.new.free.len }
{
    if shelf.free.append(&mut shelf.waiting).is_ok() {
        collect(live, seat);
    }
}

/// The rows of a session's span are free ones then, from the last on, as many as its shelf has room for.
pub(crate) fn free_rows(live: &Live, seat: &mut Seat<u8, View>, rows: &mut Span, shelf: &mut Shelf)
    requires seat { IsPassSeat live.now seat.old.table_id seat.old.me }
    requires rows { rows.old ≡ seat.old.me.0.rows }
    requires in_order { rows.old.next ≤ rows.old.stop }
    requires shelved { IsShelved (Some shelf.old) seat.old.me.0 }
    ensures same { HasSameNumber seat.old seat.new }
    ensures other_rows { HasOtherRows seat.old.me seat.new.me }
    ensures rows { rows.new ≡ seat.new.me.0.rows }
    ensures in_order { rows.new.next ≤ rows.new.stop }
    ensures shelved { IsShelved (Some shelf.new) seat.new.me.0 }
    ensures none_lost { length_of rows.new + rows_on (Some shelf.new)
        ≡ length_of rows.old + rows_on (Some shelf.old) }
    ensures at_hand { length_of rows.new + shelf.new.free.len
        ≡ length_of rows.old + shelf.old.free.len }
{
    for _ in 0..rows.len() {
        if !free_last(live, seat, rows, shelf) {
            return;
        }
    }
}

// The last row of the span is a free one, if there is room for it.
fn free_last(live: &Live, seat: &mut Seat<u8, View>, rows: &mut Span, shelf: &mut Shelf) -> bool
    requires seat { IsPassSeat live.now seat.old.table_id seat.old.me }
    requires rows { rows.old ≡ seat.old.me.0.rows }
    requires in_order { rows.old.next ≤ rows.old.stop }
    requires shelved { IsShelved (Some shelf.old) seat.old.me.0 }
    ensures same { HasSameNumber seat.old seat.new }
    ensures other_rows { HasOtherRows seat.old.me seat.new.me }
    ensures rows { rows.new ≡ seat.new.me.0.rows }
    ensures in_order { rows.new.next ≤ rows.new.stop }
    ensures shelved { IsShelved (Some shelf.new) seat.new.me.0 }
    ensures none_lost { length_of rows.new + rows_on (Some shelf.new)
        ≡ length_of rows.old + rows_on (Some shelf.old) }
    ensures at_hand { length_of rows.new + shelf.new.free.len
        ≡ length_of rows.old + shelf.old.free.len }
{
    if rows.next == rows.stop || shelf.free.len() == shelf.free.capacity() {
        return false;
    }
    free_row(live, seat);
    rows.stop -= 1;
    if shelf.free.push(rows.stop).is_err() {
        unreachable!()
    }
    true
}
