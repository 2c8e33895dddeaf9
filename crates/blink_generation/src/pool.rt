//! How a session's seat draws rows and page numbers from the map's pool.
ghost use Rattle.std.specs.Prelude.{◌≡◌, ◌+◌, ◌-◌, ◌<◌, ◌≤◌, IfNone, IfSome, IsTrue};
ghost use Rattle.blink_live.specs.{HasSameNumber, IsPassSeat, has_pages, has_rows, length_of, pool_page, pool_row, span};
ghost use Rattle.blink_generation.specs.Drawing.{IsPart, KeepsNumbers, numbers_in};

use crate::common::{POOL_PAGE, POOL_ROW};
use crate::steps::JoinPages;
use atomic_table::Seat;
use blink_live::{DrawPages, DrawRows, Live, View, word_count};
use blink_rows::Span;

/// Draws at least `least` rows from the pool for a session's seat, and at most `most`. The rows that the seat had are nobody's
/// then. It draws none if the pool has fewer.
pub(crate) fn draw_rows(
    live: &Live,
    seat: &mut Seat<u8, View>,
    least: u64,
    most: u64,
) -> Option<Span>
    requires seat { IsPassSeat live.now seat.old.table_id seat.old.me }
    requires common { 1 ≤ live.now.places }
    requires counts { (1 ≤ least) × (least ≤ most) }
    ensures same { HasSameNumber seat.old seat.new }
    ensures drawn { IfSome result (λ rows.
        seat.new.me ≡ (has_rows seat.old.me.0 rows, seat.old.me.1)) }
    ensures enough { IfSome result (λ rows. rows.next + least ≤ rows.stop) }
    ensures part { IfSome result (λ rows.
        IsPart (live.now.counts.rows + 1) live.now.places least (length_of rows)) }
    ensures none { IfNone result (seat.new.me ≡ seat.old.me) }
{
    // The range ends for the proof alone, which knows no bound of the tries.
    for _ in 0..u64::MAX {
        let drawn = part_of(live, rows_in_pool(live), least, most)?;
        if exchange_rows(live, seat, drawn.next, drawn.stop) {
            return Some(drawn);
        }
    }
    None
}

/// Draws page numbers for a session's seat, which has fewer than `least`, so that it has `least` at least, and returns them and
/// those beside. Where the pool's next number follows those that the seat has, these are one span. Else another session has drawn
/// those between: the seat keeps what it had beside, and uses it first. So it has none beside where it draws again. It draws none
/// if the pool has too few.
pub(crate) fn draw_pages(
    live: &Live,
    seat: &mut Seat<u8, View>,
    has: Span,
    spare: Span,
    least: u64,
    most: u64,
) -> Option<(Span, Span)>
    requires seat { IsPassSeat live.now seat.old.table_id seat.old.me }
    requires common { 1 ≤ live.now.places }
    requires counts { (1 ≤ least) × (least ≤ most) }
    requires has { has ≡ seat.old.me.0.pages }
    requires spare { spare ≡ seat.old.me.0.stock.spare }
    requires in_order { has.next ≤ has.stop }
    requires short { length_of has < least }
    ensures same { HasSameNumber seat.old seat.new }
    ensures drawn { IfSome result (λ drawn.
        seat.new.me ≡ (has_pages seat.old.me.0 drawn.0 drawn.1, seat.old.me.1)) }
    ensures enough { IfSome result (λ drawn. drawn.0.next + least ≤ drawn.0.stop) }
    ensures none_lost { IfSome result (λ drawn. KeepsNumbers has spare drawn.0 drawn.1) }
    ensures part { IfSome result (λ drawn. IsPart live.now.counts.numbers live.now.places
        least (numbers_in drawn.0 drawn.1 - numbers_in has spare)) }
    ensures none { IfNone result (seat.new.me ≡ seat.old.me) }
{
    // The range ends for the proof alone, which knows no bound of the tries.
    for _ in 0..u64::MAX {
        let left = pages_in_pool(live);
        if left.next == has.stop {
            let more = part_of(live, left, least - has.len(), most)?;
            if join_pages(live, seat, more.next, more.stop) {
                let joined = Span {
                    next: has.next,
                    stop: more.stop,
                };
                return Some((joined, spare));
            }
            continue;
        }
        if spare.next < spare.stop {
            return None;
        }
        let drawn = part_of(live, left, least, most)?;
        if exchange_pages(live, seat, drawn.next, drawn.stop) {
            return Some((drawn, has));
        }
    }
    None
}

// A draw takes what the pool has left, over this many times the number of places, so that a session which comes late finds its part.
const SHARES: u64 = 2;

// The first of these numbers, a place's part of them: at least `least` and at most `most`; `None`, if there are fewer.
fn part_of(live: &Live, left: Span, least: u64, most: u64) -> Option<Span>
    requires common { 1 ≤ live.now.places }
    requires counts { (1 ≤ least) × (least ≤ most) }
    ensures first { IfSome result (λ drawn. drawn.next ≡ left.next) }
    ensures some { IfSome result
        (λ drawn. (drawn.next + least ≤ drawn.stop) × (drawn.stop ≤ left.stop)) }
    ensures part { IfSome result
        (λ drawn. IsPart (length_of left) live.now.places least (length_of drawn)) }
{
    let count = left.len();
    if count < least {
        return None;
    }
    let part = least.max(count / SHARES / live.places);
    Some(Span {
        next: left.next,
        stop: left.next + most.min(part),
    })
}

/// Returns the rows that the pool has left. Other threads may draw at any time, so that only the end is sure.
pub(crate) fn rows_in_pool(live: &Live) -> Span
    requires common { 1 ≤ live.now.places }
    ensures end { result.stop ≡ live.now.counts.rows + 1 }
{
    Span {
        next: live.table.shared.peek(row_word(live)),
        stop: live.counts.rows + 1,
    }
}

/// Draws the rows from `next` to `stop` for a session's seat, if `next` is the pool's next row, and returns whether it is. The
/// rows that the seat had are nobody's then.
pub(crate) fn exchange_rows(live: &Live, seat: &mut Seat<u8, View>, next: u64, stop: u64) -> bool
    requires seat { IsPassSeat live.now seat.old.table_id seat.old.me }
    requires common { 1 ≤ live.now.places }
    requires rows { (next ≤ stop) × (stop ≤ live.now.counts.rows + 1) }
    ensures same { HasSameNumber seat.old seat.new }
    ensures got { IsTrue result
        → seat.new.me ≡ (has_rows seat.old.me.0 (span next stop), seat.old.me.1) }
    ensures lost { ¬ IsTrue result → seat.new.me ≡ seat.old.me }
{
    let word = row_word(live);
    live.table
        .shared
        .compare_exchange::<DrawRows>(seat, word, next, stop)
        == next
}

/// Returns the page numbers that the pool has left. Other threads may draw at any time, so that only the end is sure.
pub(crate) fn pages_in_pool(live: &Live) -> Span
    requires common { 1 ≤ live.now.places }
    ensures end { result.stop ≡ live.now.counts.numbers }
{
    Span {
        next: live.table.shared.peek(page_word(live)),
        stop: live.counts.numbers,
    }
}

/// Draws the page numbers from `next` to `stop` for a session's seat, if `next` is the pool's next number, and returns whether it
/// is. The seat keeps the numbers that it had beside.
pub(crate) fn exchange_pages(live: &Live, seat: &mut Seat<u8, View>, next: u64, stop: u64) -> bool
    requires seat { IsPassSeat live.now seat.old.table_id seat.old.me }
    requires common { 1 ≤ live.now.places }
    requires pages { (next ≤ stop) × (stop ≤ live.now.counts.numbers) }
    ensures same { HasSameNumber seat.old seat.new }
    ensures got { IsTrue result
        → seat.new.me
        ≡ (has_pages seat.old.me.0 (span next stop) seat.old.me.0.pages, seat.old.me.1) }
    ensures lost { ¬ IsTrue result → seat.new.me ≡ seat.old.me }
{
    let word = page_word(live);
    live.table
        .shared
        .compare_exchange::<DrawPages>(seat, word, next, stop)
        == next
}

/// Draws the page numbers from `next` to `stop` for a session's seat, if `next` is the pool's next number, and returns whether it
/// is. They follow those that the seat has, which keeps these.
pub(crate) fn join_pages(live: &Live, seat: &mut Seat<u8, View>, next: u64, stop: u64) -> bool
    requires seat { IsPassSeat live.now seat.old.table_id seat.old.me }
    requires common { 1 ≤ live.now.places }
    requires pages { (next ≤ stop) × (stop ≤ live.now.counts.numbers) }
    requires follows { seat.old.me.0.pages.stop ≡ next }
    requires in_order { seat.old.me.0.pages.next ≤ next }
    ensures same { HasSameNumber seat.old seat.new }
    ensures got { IsTrue result
        → seat.new.me ≡ (
          has_pages seat.old.me.0 (span seat.old.me.0.pages.next stop)
              seat.old.me.0.stock.spare,
          seat.old.me.1,
        ) }
    ensures lost { ¬ IsTrue result → seat.new.me ≡ seat.old.me }
{
    let word = page_word(live);
    live.table
        .shared
        .compare_exchange::<JoinPages>(seat, word, next, stop)
        == next
}

// The place of the pool's word of rows.
fn row_word(live: &Live) -> usize
    requires common { 1 ≤ live.now.places }
    ensures { result ≡ pool_row live.now.counts }
{
    // Read for the proof: there are few numbers and rows.
    let _rows = live.counts.rows;
    word_count(&live.counts) + POOL_ROW
}

// The place of its word of page numbers.
fn page_word(live: &Live) -> usize
    requires common { 1 ≤ live.now.places }
    ensures { result ≡ pool_page live.now.counts }
{
    // Read for the proof: there are few numbers and rows.
    let _rows = live.counts.rows;
    word_count(&live.counts) + POOL_PAGE
}
