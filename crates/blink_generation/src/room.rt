//! What a map's pool has left.
ghost use Rattle.std.specs.Prelude.{◌<◌, ◌≤◌};

use crate::map::Map;
use crate::pool::{pages_in_pool, rows_in_pool};

impl Map {
    /// Returns the number of rows that the pool has left, and of page numbers, for a look. Sessions may draw at any time, so the
    /// counts prove no more than that the map has no more rows and page numbers. What sessions have drawn isn't counted.
    pub fn room(&self) -> (u64, u64)
        ensures rows { result.0 ≤ self.now.live.counts.rows }
        ensures pages { result.1 < self.now.live.counts.numbers }
    {
        (
            rows_in_pool(&self.live).len().min(self.live.counts.rows),
            pages_in_pool(&self.live)
                .len()
                .min(self.live.counts.numbers - 1),
        )
    }
}
