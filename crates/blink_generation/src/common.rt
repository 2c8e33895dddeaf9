//! The table of a map, whose keys any seat changes: how it opens.
ghost use Rattle.std.specs.Prelude.{◌≡◌, ◌+◌, ◌<◌, ◌≤◌, ◌++◌, ◌*◌, ℕ, List, IfOk, drop, length, replicate, set};
ghost use Rattle.blink_page.specs.declared.limits.TheConstants.{MAX_PAGE};
ghost use Rattle.blink_generation.specs.Common.{IsOpenedCommon};
ghost use Rattle.blink_live.specs.{IsLaid, pool_page, pool_row, word_count};

use atomic_table::{Seat, Table};
use blink_index::Index;
use blink_live::{InvariantOfTree, Live, Opened, View, lay_tree, word_count};
use blink_rows::Counts;
use blink_store::Store;
use std::alloc::{AllocError, Global};
use std::snapshot::Snapshot;

/// The number of words in the line of a place, as many as in a line of the processor's cache.
pub(crate) const PLACE_WORDS: usize = 8;

// The places of the pool's words behind the rows.
pub(crate) const POOL_ROW: usize = 1;

pub(crate) const POOL_PAGE: usize = 2;

/// What a common table has beside the rows and numbers of its pages: page numbers, rows, and places for sessions.
#[derive(Clone, Copy)]
pub(crate) struct Extent {
    pub pages: u32,
    pub rows: u32,
    pub places: u32,
}

/// Opens a common table over the index's tree, and returns it with the seat of its host, which has all rows and page numbers
/// that no page has. The index stays as it is.
pub(crate) fn open_common(
    alloc: Global,
    index: &Index,
    extent: Extent,
) -> Result<(Live, Seat<u8, View>), AllocError>
    requires pages { length index.now.pages + extent.pages ≤ MAX_PAGE }
    requires places { (1 ≤ extent.places) × (extent.places ≤ 256) }
    ensures opened { IfOk result (λ opened. IsOpenedCommon index.now extent opened.0 opened.1) }
{
    let count = index.page_count();
    let counts = counts_over(count, &extent);
    let places = u64::from(extent.places);
    let store = index.rest().store();
    let words = words_with_places(alloc, &counts, places, store)?;
    let opened = Opened {
        counts,
        places,
        index: Snapshot::of(index),
    };
    let (table, seat) = Table::<u8, View, Opened, InvariantOfTree, Global>::of_words(
        alloc, &words, &opened,
    )?;
    let fan = store.fan();
    let live = Live {
        table,
        counts,
        fan,
        places,
    };
    Ok((live, seat))
}

// The counts of a table over this many pages, of such an extent.
fn counts_over(count: u32, extent: &Extent) -> Counts
    requires { count + extent.now.pages ≤ MAX_PAGE }
    ensures numbers { result.numbers ≡ 1 + count + extent.now.pages }
    ensures rows { result.rows ≡ 1 + count + extent.now.rows }
{
    Counts {
        numbers: 1 + u64::from(count) + u64::from(extent.pages),
        rows: 1 + u64::from(count) + u64::from(extent.rows),
    }
}

// The words of a common table over the store's tree. The words of its places, behind the rows, are 0. Its pool has all rows and
// page numbers that no page has.
fn words_with_places(
    alloc: Global,
    counts: &Counts,
    places: u64,
    store: &Store,
) -> Result<Vec<u64>, AllocError>
    requires numbers { length store.now.pages < counts.now.numbers }
    requires rows { length store.now.pages < counts.now.rows }
    requires places { (1 ≤ places) × (places ≤ 256) }
    ensures { IfOk result (λ words. (front : List ℕ) × IsLaid counts.now store.now front
        × (words.items ≡ set (set (front ++ replicate (8 * places) 0)
        (pool_row counts.now) (length store.now.pages + 2))
        (pool_page counts.now) (length store.now.pages + 1))) }
{
    // Read for the proof: there are few numbers and rows.
    let _numbers = counts.numbers;
    let _rows = counts.rows;
    let mut words = vec![in alloc; 0u64; word_count(counts) + PLACE_WORDS * places as usize]?;
    lay_common(&mut words, counts, store);
    Ok(words)
}

// Lays the tree into the first words, and the pool's words behind them.
fn lay_common(words: &mut [u64], counts: &Counts, store: &Store)
    requires numbers { length store.now.pages < counts.now.numbers }
    requires rows { length store.now.pages < counts.now.rows }
    requires blank { (places : ℕ) × (1 ≤ places)
        × (words.old ≡ replicate (word_count counts.now + 8 * places) 0) }
    ensures { (front : List ℕ) × IsLaid counts.now store.now front
        × (words.new ≡ set (set (front ++ drop (word_count counts.now) words.old)
        (pool_row counts.now) (length store.now.pages + 2))
        (pool_page counts.now) (length store.now.pages + 1)) }
{
    let front = word_count(counts);
    lay_front(words, counts, store);
    words[front + POOL_ROW] = u64::from(store.pages()) + 2;
    words[front + POOL_PAGE] = u64::from(store.pages()) + 1;
}

// Lays the tree into the first words.
fn lay_front(words: &mut [u64], counts: &Counts, store: &Store)
    requires numbers { length store.now.pages < counts.now.numbers }
    requires rows { length store.now.pages < counts.now.rows }
    requires blank { (places : ℕ) × (words.old ≡ replicate (word_count counts.now + 8 * places) 0) }
    ensures { (front : List ℕ) × IsLaid counts.now store.now front
        × (words.new ≡ front ++ drop (word_count counts.now) words.old) }
{
    let front = word_count(counts);
    lay_tree(&mut words[..front], counts, store);
}
