//! The bounds of pages and trees.
ghost use Rattle.std.specs.Prelude.{◌↔◌, IsTrue};
ghost use Rattle.blink_page.specs.Limits.{ExceedsPageLimit};

/// The least number of entries that a tree may allow its pages.
pub const MIN_FAN: u8 = 4;

/// The greatest number of entries that a tree may allow its pages.
pub const MAX_FAN: usize = 32;

/// The number of entries of a full page with one more, which is then split.
pub(crate) const OVERFULL: usize = MAX_FAN + 1;

/// The highest level that a page may have. No tree reaches it: there are too few page numbers for more than 20 levels, so the
/// highest level that exists is 19.
pub const MAX_LEVEL: u8 = 20;

/// The number of levels that a prime block has room for: those from 0 to `MAX_LEVEL`.
pub const LEVELS: usize = 21;

/// The greatest number of a page. Number 0 is the prime block's.
pub const MAX_PAGE: u32 = 1_048_575;

/// A bound of the page numbers that an insertion takes: one for each page that it splits, and one for a new root. If the prime
/// block names 20 levels, these are 21; the promise is 22.
pub const MAX_NEW_PAGES_PER_INSERT: u64 = 22;

/// A bound of the page writes of an insertion: two on each level that it comes to, and one for a new root.
pub const MAX_PAGE_WRITES_PER_INSERT: u64 = 43;

/// The high key of the last page of each level, so that every key has a page.
pub const GREATEST_KEY: u64 = 18_446_744_073_709_551_615;

/// Returns whether `inserts` insertions into a tree of `pages` pages might need more page numbers than exist. The call takes no
/// memory.
pub fn exceeds_page_limit(pages: u32, inserts: u32) -> bool
    ensures { IsTrue result ↔ ExceedsPageLimit pages inserts }
{
    1 + u64::from(pages) + MAX_NEW_PAGES_PER_INSERT * u64::from(inserts) > u64::from(MAX_PAGE) + 1
}
