//! What a session has of the map's rows and page numbers.
ghost use Rattle.std.specs.Prelude.{◌≡◌};
ghost use Rattle.blink_generation.specs.Stocks.{stock_of};

use crate::map::{Map, Session};

/// The rows and page numbers that a session has. They are its own until it leaves; then they stay at its place.
#[derive(Clone, Copy, Debug, PartialEq, Eq)]
pub struct Stock {
    /// Page numbers that the session has drawn and not used, in its span and beside.
    pub pages: u64,
    /// Rows that it has drawn and not written.
    pub unwritten: u64,
    /// Rows that have come back, and may be written again.
    pub free: u64,
    /// Rows that its changes have taken out, and that don't wait yet.
    pub taken_out: u64,
    /// Rows that wait until nobody can read them.
    pub waiting: u64,
}

impl Map {
    /// Returns what the session has of rows and page numbers, for an operator to look at. `room` tells what the pool has.
    pub fn stock(&self, session: &Session) -> Stock
        ensures { result ≡ stock_of session.now }
    {
        let member = &session.member;
        let (free, taken_out, waiting, spare) = match &member.room.shelf {
            Some(shelf) => (
                shelf.free.len(),
                shelf.retired.len(),
                shelf.waiting.len(),
                shelf.spare.len(),
            ),
            None => (0, 0, 0, 0),
        };
        Stock {
            pages: member.pages.len().saturating_add(spare),
            unwritten: member.rows.len(),
            free: free as u64,
            taken_out: taken_out as u64,
            waiting: waiting as u64,
        }
    }
}
