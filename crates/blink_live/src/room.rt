//! The rows and page numbers that changes use: how many changes some rows and numbers are enough for, and which of them one
//! change may use.
ghost use Rattle.std.specs.Prelude.{◌≡◌, ◌+◌, ◌≤◌};
ghost use Rattle.blink_live.specs.Allowed.{AreForChanges, changes_left, deletes_left, inserts_left};
ghost use Rattle.blink_live.specs.Updating.{room_for};
ghost use Rattle.blink_live.specs.Views.{pages_of, rows_of, span};

use crate::shelf::Shelf;
use blink_batch::Op;
use blink_rows::{MAX_NEW_PAGES_PER_INSERT, MAX_ROWS_PER_INSERT, Span};

/// The rows and the page numbers that one operation may still use, and its pass's latch number, which it puts into the latch
/// words of pages. A session's operation has a shelf too, whose free rows it writes first.
#[derive(Drop)]
pub struct Room {
    pub rows: Span,
    pub pages: Span,
    pub latch_number: u64,
    pub shelf: Option<Shelf>,
}

impl Room {
    // The row that the operation writes first.
    pub(crate) fn first_row(&self) -> u64 {
        match &self.shelf {
            Some(shelf) => *shelf.free.last().unwrap_or(&self.rows.next),
            None => self.rows.next,
        }
    }
}

// The number of insertions that these page numbers are enough for.
pub(crate) fn inserts_left(pages: &Span) -> u64
    ensures { result ≡ inserts_left pages.now }
{
    pages.len() / MAX_NEW_PAGES_PER_INSERT
}

// The number of deletions that these rows are enough for, beside those of the insertions.
pub(crate) fn deletes_left(pages: &Span, rows: &Span) -> u64
    requires { AreForChanges pages.now rows.now }
    ensures { result ≡ deletes_left pages.now rows.now }
{
    rows.len() - MAX_ROWS_PER_INSERT * inserts_left(pages)
}

// The number of changes left of the operation's kind. All that change the tree but an insertion count as deletions.
pub(crate) fn changes_left(op: Op, pages: &Span, rows: &Span) -> u64
    requires { AreForChanges pages.now rows.now }
    ensures { result ≡ changes_left op pages.now rows.now }
{
    match op {
        Op::Insert(..) => inserts_left(pages),
        Op::Find(_) | Op::Delete(_) | Op::Replace(..) | Op::Exchange(..) | Op::DeleteExact(..) =>
            deletes_left(pages, rows),
    }
}

// Takes the first `count` numbers off a span.
pub(crate) fn first_of(rest: &mut Span, count: u64) -> Span
    requires enough { rest.old.next + count ≤ rest.old.stop }
    ensures first { result ≡ span rest.old.next (rest.old.next + count) }
    ensures rest { rest.new ≡ span (rest.old.next + count) rest.old.stop }
{
    let next = rest.next;
    let _stop = rest.stop;
    rest.next += count;
    Span {
        next,
        stop: next + count,
    }
}

// Takes what the operation may use: the first rows and page numbers. The spans keep the rest. A pass's latch number is that of
// its last row.
pub(crate) fn next_of(op: Op, rows: &mut Span, pages: &mut Span) -> Room
    requires rows { rows.old.next + rows_of op ≤ rows.old.stop }
    requires pages { pages.old.next + pages_of op ≤ pages.old.stop }
    requires some_row { 1 ≤ rows.old.stop }
    ensures room { result ≡ room_for op rows.old pages.old }
    ensures rows { rows.new ≡ span (rows.old.next + rows_of op) rows.old.stop }
    ensures pages { pages.new ≡ span (pages.old.next + pages_of op) pages.old.stop }
{
    let (row_count, page_count) = match op {
        Op::Find(_) => (0, 0),
        Op::Insert(..) => (MAX_ROWS_PER_INSERT, MAX_NEW_PAGES_PER_INSERT),
        Op::Delete(_) | Op::Replace(..) | Op::Exchange(..) | Op::DeleteExact(..) => (1, 0),
    };
    Room {
        rows: first_of(rows, row_count),
        pages: first_of(pages, page_count),
        latch_number: rows.stop - 1,
        shelf: None,
    }
}
