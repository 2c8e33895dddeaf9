//! Opening a table over an index, the words that it begins with, and the reads of its own fields.
ghost use Rattle.std.specs.Prelude.{◌≡◌, ◌↔◌, ◌⊎◌, length, IfOk, IfErr, IsErrOf, IsTrue, ◌+◌, ◌<◌, ◌≤◌, replicate, IsSome};
ghost use Rattle.blink_live.specs.Allowed.{IsTooLarge};
ghost use Rattle.blink_live.specs.Handles.{IsOpened, counts_of, fan_of};
ghost use Rattle.blink_live.specs.Laid.{IsLaid};
ghost use Rattle.blink_live.specs.Laying.{LaysRow};
ghost use Rattle.blink_live.specs.Words.{word_count};

use crate::error::LiveError;
use crate::live::{Keeper, Live};
use crate::rule::InvariantOfTree;
use crate::view::{Opened, View};
use atomic_table::Table;
use blink_index::Index;
use blink_page::exceeds_page_limit;
use blink_rows::{Allowance, Counts, ROW_WORDS, Span, page_row, prime_row};
use blink_store::Store;
use std::alloc::{AllocError, Global};
use std::snapshot::Snapshot;

impl Live {
    /// Opens a table over the index's tree, and returns it with the keeper that deals its passes. The index stays as it is. The
    /// table has room for the insertions and deletions of `allowance`; a replacement uses a deletion.
    ///
    /// The call refuses with `TooLarge`, before it asks for memory, exactly if the insertions might need more page numbers than
    /// the 1,048,576 that exist, at 22 each. So a table takes at most 47,662 insertions, over an index of one page. It refuses with
    /// `OutOfMemory`, if memory was refused. Each insertion allowed takes 26 KB of the table, and each deletion 576 bytes.
    pub fn open(
        alloc: Global,
        index: &Index,
        allowance: Allowance,
    ) -> Result<(Live, Keeper), LiveError>
        ensures opened { IfOk result (λ opened. IsOpened index.now allowance opened.0 opened.1) }
        ensures too_large { IsErrOf result LiveError.TooLarge
            ↔ IsTooLarge (length index.now.pages) allowance }
        ensures refused { IfErr result
            (λ refusal. (refusal ≡ LiveError.TooLarge) ⊎ (refusal ≡ LiveError.OutOfMemory)) }
    {
        let count = index.page_count();
        if exceeds_page_limit(count, allowance.inserts) {
            return Err(LiveError::TooLarge);
        }
        let counts = Counts::of(count, allowance);
        let store = index.rest().store();
        let Ok(words) = laid_words(alloc, &counts, store) else {
            return Err(LiveError::OutOfMemory);
        };
        let opened = Opened {
            counts,
            places: 0,
            index: Snapshot::of(index),
        };
        let Ok((table, seat)) = Table::<u8, View, Opened, InvariantOfTree, Global>::of_words(
            alloc, &words, &opened,
        ) else {
            return Err(LiveError::OutOfMemory);
        };
        let keeper = Keeper {
            seat,
            taken: Vec::new(alloc),
            rows: Span {
                next: u64::from(count) + 2,
                stop: counts.rows + 1,
            },
            pages: Span {
                next: u64::from(count) + 1,
                stop: counts.numbers,
            },
            dealt: 0,
            back: 0,
        };
        let fan = store.fan();
        let live = Live {
            table,
            counts,
            fan,
            places: 0,
        };
        Ok((live, keeper))
    }

    /// Returns the greatest number of entries in a page.
    pub fn fan(&self) -> u8
        ensures { result ≡ fan_of self.now }
    {
        self.fan
    }

    /// Returns the number of page numbers and rows of the table. Its layout follows from them.
    pub fn counts(&self) -> Counts
        ensures { result ≡ counts_of self.now }
    {
        self.counts
    }

    /// Returns the number of words of the table.
    pub fn word_count(&self) -> usize
        ensures { result ≡ word_count (counts_of self.now) }
    {
        word_count(&self.counts)
    }

    /// Returns a word of the table as it is now, for a look into the layout; `None` from `word_count` on. Other threads may
    /// change the word at any time, so its value proves nothing.
    pub fn word(&self, place: usize) -> Option<u64>
        ensures { IsSome result ↔ place < word_count (counts_of self.now) }
    {
        if place < self.word_count() {
            Some(self.table.shared.peek(place))
        } else {
            None
        }
    }
}

// The words of a table over the store's tree: its prime block in row 1, and page `n` in row `n + 1`.
fn laid_words(alloc: Global, counts: &Counts, store: &Store) -> Result<Vec<u64>, AllocError>
    requires numbers { length store.now.pages < counts.now.numbers }
    requires rows { length store.now.pages < counts.now.rows }
    ensures { IfOk result (λ words. IsLaid counts.now store.now words.items) }
{
    let mut words = vec![in alloc; 0u64; word_count(counts)]?;
    lay_tree(&mut words, counts, store);
    Ok(words)
}

// The number of words of a table.
pub fn word_count(counts: &Counts) -> usize
    ensures { result ≡ word_count counts.now }
{
    2 * counts.numbers as usize + ROW_WORDS * counts.rows as usize
}

// Lays the prime block and the pages into words that are all 0 before.
pub fn lay_tree(words: &mut [u64], counts: &Counts, store: &Store)
    requires numbers { length store.now.pages < counts.now.numbers }
    requires rows { length store.now.pages < counts.now.rows }
    requires blank { words.old ≡ replicate (word_count counts.now) 0 }
    ensures { IsLaid counts.now store.now words.new }
{
    lay_row(words, counts, 0, &prime_row(store.prime()));
    for before in 0..store.pages() {
        let number = before + 1;
        lay_row(words, counts, number, &page_row(store.read(number)));
    }
}

// Stores a row as row `number + 1`, and names it in the number's page word.
fn lay_row(words: &mut [u64], counts: &Counts, number: u32, row: &[u64; ROW_WORDS])
    requires width { length words.old ≡ word_count counts.now }
    requires number { number < counts.now.numbers }
    requires row { number < counts.now.rows }
    ensures { LaysRow counts.now words.old words.new number row.now }
{
    let row_number = u64::from(number) + 1;
    words[number as usize] = row_number;
    let start = counts.row_start(row_number) as usize;
    words[start..start + ROW_WORDS].copy_from_slice(row);
}
