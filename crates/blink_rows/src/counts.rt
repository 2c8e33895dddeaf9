//! The size of a table, and the places of its rows.
ghost use Rattle.std.specs.Prelude.{◌≡◌, ◌+◌, ◌-◌, ◌*◌, ◌≤◌};

use crate::allowance::Allowance;
use crate::limits::{MAX_ROWS_PER_INSERT, ROW_WORDS};
use blink_page::{MAX_NEW_PAGES_PER_INSERT, MAX_PAGE};
use std::marker::Model;

/// The number of page numbers of a table, with number 0, which is the prime block's, and the number of its rows.
#[derive(Clone, Copy, Debug, PartialEq, Eq)]
pub struct Counts {
    pub numbers: u64,
    pub rows: u64,
}

impl Model for Counts {
    ghost use Rattle.blink_rows.specs.Counts.{PlainCounts, AreBounded};

    ghost Value = { PlainCounts };

    ghost use Rattle.blink_rows.specs.CountsView.{plain, inside_of};

    ghost view = { plain };

    ghost invariant = { λ counts. AreBounded (plain counts) };

    ghost inverse = { inside_of };
}

impl Counts {
    /// Returns the counts of a table that opens with this many pages and has room for these changes: a row for each page and for
    /// the prime block, and the rows and numbers that the changes may take.
    pub fn of(pages: u32, allowance: Allowance) -> Counts
        requires { 1 + pages + MAX_NEW_PAGES_PER_INSERT * allowance.inserts ≤ MAX_PAGE + 1 }
        ensures numbers { result.numbers ≡ 1 + pages + MAX_NEW_PAGES_PER_INSERT * allowance.inserts }
        ensures rows { result.rows
            ≡ 1 + pages + MAX_ROWS_PER_INSERT * allowance.inserts + allowance.deletes }
    {
        let opening = 1 + u64::from(pages);
        let inserts = u64::from(allowance.inserts);
        Counts {
            numbers: opening + MAX_NEW_PAGES_PER_INSERT * inserts,
            rows: opening + MAX_ROWS_PER_INSERT * inserts + u64::from(allowance.deletes),
        }
    }

    /// Returns the place of a row's first word in the table. The rows, from row 1 on, stand after two words for each number.
    pub fn row_start(&self, row: u64) -> u64
        requires first { 1 ≤ row }
        requires last { row ≤ self.now.rows }
        ensures { result ≡ 2 * self.now.numbers + ROW_WORDS * (row - 1) }
    {
        2 * self.numbers + ROW_WORDS as u64 * (row - 1)
    }
}
