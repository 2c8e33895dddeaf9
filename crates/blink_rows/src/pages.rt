//! The row of a page.
ghost use Rattle.std.specs.Prelude.{◌≡◌, ◌*◌, ◌<◌, ◌≤◌, ℕ, Option, IfSome, IfNone, length, unwrap_or};
ghost use Rattle.blink_page.specs.{IsPageNumber, ValuesWithin};
ghost use Rattle.blink_rows.specs.Row.{flat, flag, IsPageRow, IsRowOfNoPage};

use crate::lawful::is_lawful;
use crate::layout::{COUNT, ENTRY_WORDS, FLOOR, HAS_FLOOR, HIGH_KEY, LEVEL, RIGHT_LINK};
use crate::limits::{HEAD_WORDS, ROW_WORDS};
use crate::words::{content, page_number, row_of};
use arrayvec::ArrayVec;
use blink_page::{GREATEST_KEY, MAX_FAN, MAX_LEVEL, Page};

/// Returns the row of a page.
pub fn page_row(page: &Page) -> [u64; ROW_WORDS]
    ensures { IsPageRow page.now result }
{
    let mut words = row_of([
        u64::from(page.level),
        u64::from(page.floor.is_some()),
        page.floor.unwrap_or(0),
        page.high,
        page.right.map_or(0, u64::from),
        page.items.len() as u64,
    ]);
    for (i, &(key, value)) in page.items.iter().enumerate() {
        let at = HEAD_WORDS + ENTRY_WORDS * i;
        words[at] = key;
        words[at + 1] = value;
    }
    words
}

/// Returns the page whose row these words are, or `None` if they are no page's row.
pub fn row_page(words: &[u64; ROW_WORDS]) -> Option<Page>
    ensures page { IfSome result (λ page. IsPageRow page words.now) }
    ensures none { IfNone result (IsRowOfNoPage words.now) }
{
    let level = level_of(words[LEVEL])?;
    let floor = floor_of(words[HAS_FLOOR], words[FLOOR])?;
    let high = words[HIGH_KEY];
    let right = link_of(words[RIGHT_LINK])?;
    let count = count_of(words[COUNT])?;
    let items = entries_of(content(words, 2 * count)?, count);
    if !is_lawful(level, floor, high, right, &items) {
        return None;
    }
    Some(Page {
        level,
        floor,
        high,
        right,
        items,
    })
}

// The level that this word stores.
fn level_of(word: u64) -> Option<u8>
    ensures some { IfSome result (λ level. (level ≡ word) × (level ≤ MAX_LEVEL)) }
    ensures none { IfNone result (MAX_LEVEL < word) }
{
    if word <= u64::from(MAX_LEVEL) {
        Some(word as u8)
    } else {
        None
    }
}

// The floor that these two words store.
fn floor_of(has_floor: u64, word: u64) -> Option<Option<u64>>
    ensures some { IfSome result (λ floor. (flag floor ≡ has_floor) × (unwrap_or floor 0 ≡ word)) }
    ensures none { IfNone result
        ((floor : Option ℕ) → flag floor ≡ has_floor → unwrap_or floor 0 ≡ word → ⊥) }
{
    match (has_floor, word) {
        (0, 0) => Some(None),
        (1, floor) => Some(Some(floor)),
        _ => None,
    }
}

// The right link that this word stores.
fn link_of(word: u64) -> Option<Option<u32>>
    ensures link { IfSome result (λ link. unwrap_or link 0 ≡ word) }
    ensures number { IfSome result (λ link. IfSome link IsPageNumber) }
    ensures none { IfNone result
        ((link : Option ℕ) → unwrap_or link 0 ≡ word → IfSome link IsPageNumber → ⊥) }
{
    if word == 0 {
        return Some(None);
    }
    page_number(word).map(Some)
}

/// The number of entries that this word stores, if a page has room for that many.
pub(crate) fn count_of(word: u64) -> Option<usize>
    ensures some { IfSome result (λ count. (count ≡ word) × (count ≤ MAX_FAN)) }
    ensures none { IfNone result (MAX_FAN < word) }
{
    if word <= MAX_FAN as u64 {
        Some(word as usize)
    } else {
        None
    }
}

// The entries that these words store, a key and a value in turn.
fn entries_of(words: &[u64], count: usize) -> ArrayVec<(u64, u64), MAX_FAN>
    requires even { length words.now ≡ 2 * count }
    requires room { count ≤ MAX_FAN }
    ensures words { flat result.items ≡ words.now }
    ensures values { ValuesWithin 0 GREATEST_KEY result.items }
{
    let mut entries = ArrayVec::new();
    for i in 0..count {
        entries.push((words[2 * i], words[2 * i + 1]));
    }
    entries
}
