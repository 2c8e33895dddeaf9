//! Rows with a log: what a base and the records behind it mean together.
ghost use Rattle.std.specs.Prelude.{◌≡◌, ◌↔◌, ℕ, ◌+◌, ◌*◌, ◌<◌, ◌≤◌, IfNone, IfSome, IsFalse, IsTrue, List, ◌∷◌, ◌++◌, length, slice_index};
ghost use Rattle.blink_page.specs.{IsKeyOf, PlainPage, value_at};
ghost use Rattle.blink_page.specs.declared.limits.TheConstants.{MAX_FAN};
ghost use Rattle.blink_rows.specs.declared.log.Record.{Record};
ghost use Rattle.blink_rows.specs.Log.{AllFit, BeginsWith, Finds, Fits, IsLoggedRow, counted, page_with, pointer_after, row_words};
ghost use Rattle.blink_rows.specs.Row.{page_words};

use crate::lawful::is_above;
use crate::layout::{COUNT, ENTRY_WORDS};
use crate::limits::{HEAD_WORDS, MAX_RECORDS, ROW_WORDS};
use crate::log::{Kind, Record};
use crate::naming::Records;
use crate::pages::{count_of, row_page};
use arrayvec::ArrayVec;
use blink_page::{MAX_FAN, Page};

/// Returns the pointer stored for a key in the page that a row's base and records mean; `None` if the key is absent. The newest
/// record about the key says it, or the base if there is none. Of words that are no such row the answer says nothing.
pub fn find_in_row(words: &[u64; ROW_WORDS], records: Records, key: u64) -> Option<u64>
    ensures { (base : PlainPage) (log : List Record) → IsLoggedRow base log words.now records
        → result ≡ value_at key (page_with base log).entries }
{
    let Some(base) = base_count(words, records) else {
        return None;
    };
    match newest(words, base, records, key) {
        Some(record) => record.pointer_after(),
        None => value_in_base(words, base, key),
    }
}

// The number of entries of the base, if the row has room for these and for so many records.
fn base_count(words: &[u64; ROW_WORDS], records: Records) -> Option<usize>
    ensures base { IfSome result (λ base. base ≡ slice_index words.now COUNT) }
    ensures few { IfSome result (λ _. records.count ≤ MAX_RECORDS) }
    ensures room { IfSome result
        (λ base. HEAD_WORDS + ENTRY_WORDS * (base + records.count) ≤ ROW_WORDS) }
    ensures none { IfNone result ((base : PlainPage) (log : List Record)
        → IsLoggedRow base log words.now records → ⊥) }
{
    let base = count_of(words[COUNT])?;
    let count = usize::from(records.count);
    if count <= MAX_RECORDS && HEAD_WORDS + ENTRY_WORDS * (base + count) <= ROW_WORDS {
        Some(base)
    } else {
        None
    }
}

// The newest record about a key, behind a base of so many entries.
fn newest(words: &[u64; ROW_WORDS], base: usize, records: Records, key: u64) -> Option<Record>
    requires few { records.count ≤ MAX_RECORDS }
    requires room { HEAD_WORDS + ENTRY_WORDS * (base + records.count) ≤ ROW_WORDS }
    ensures some { IfSome result (λ r. (page : PlainPage) (log : List Record)
        → IsLoggedRow page log words.now records → base ≡ length page.entries
        → value_at key (page_with page log).entries ≡ pointer_after r) }
    ensures none { IfNone result ((page : PlainPage) (log : List Record)
        → IsLoggedRow page log words.now records → base ≡ length page.entries
        → value_at key (page_with page log).entries ≡ value_at key page.entries) }
{
    for left in (0..records.count).rev() {
        let record = record_at(words, base, records, left);
        if record.key == key {
            return Some(record);
        }
    }
    None
}

// The record that has so many older ones, behind a base of so many entries.
fn record_at(words: &[u64; ROW_WORDS], base: usize, records: Records, older: u8) -> Record
    requires few { records.count ≤ MAX_RECORDS }
    requires room { HEAD_WORDS + ENTRY_WORDS * (base + records.count) ≤ ROW_WORDS }
    requires record { older < records.count }
    ensures kind { (front : List Record) (r : Record) (back : List Record)
        → counted (front ++ r ∷ back) ≡ records → length front ≡ older → result.kind ≡ r.kind }
    ensures words { (result.key ≡ slice_index words.now (HEAD_WORDS + ENTRY_WORDS * (base + older)))
        × (result.pointer ≡ slice_index words.now (HEAD_WORDS + ENTRY_WORDS * (base + older) + 1)) }
{
    let at = HEAD_WORDS + ENTRY_WORDS * (base + usize::from(older));
    Record {
        kind: records.kind(older),
        key: words[at],
        pointer: words[at + 1],
    }
}

// The pointer stored for a key in a base of so many entries.
fn value_in_base(words: &[u64; ROW_WORDS], base: usize, key: u64) -> Option<u64>
    requires room { HEAD_WORDS + ENTRY_WORDS * base ≤ ROW_WORDS }
    ensures { (page : PlainPage) → BeginsWith words.now (page_words page) → base ≡ length page.entries
        → result ≡ value_at key page.entries }
{
    for place in 0..base {
        let at = HEAD_WORDS + ENTRY_WORDS * place;
        if words[at] == key {
            return Some(words[at + 1]);
        }
    }
    None
}

/// Returns the page that a row's base and records mean; `None` if no page means these words with this said of its records. So the
/// answer is a lawful page.
pub fn page_in_row(words: &[u64; ROW_WORDS], records: Records) -> Option<Page>
    ensures page { IfSome result (λ page. (base : PlainPage) × (log : List Record)
        × IsLoggedRow base log words.now records × (page ≡ page_with base log)) }
    ensures none { IfNone result ((base : PlainPage) (log : List Record)
        → IsLoggedRow base log words.now records → ⊥) }
{
    let base = base_count(words, records)?;
    let mut page = row_page(&base_row(words, base))?;
    // Read for the proof: a page is lawful.
    let _level = page.level;
    let log = log_in(words, base, records)?;
    if apply_all(&mut page, &log) {
        Some(page)
    } else {
        None
    }
}

// The words of the head and of so many entries; all words behind them are 0.
fn base_row(words: &[u64; ROW_WORDS], base: usize) -> [u64; ROW_WORDS]
    requires room { HEAD_WORDS + ENTRY_WORDS * base ≤ ROW_WORDS }
    ensures width { length result ≡ ROW_WORDS }
    ensures words { (n : ℕ) → n < HEAD_WORDS + ENTRY_WORDS * base
        → slice_index result n ≡ slice_index words.now n }
    ensures rest { (n : ℕ) → HEAD_WORDS + ENTRY_WORDS * base ≤ n → slice_index result n ≡ 0 }
{
    let mut row = [0; ROW_WORDS];
    for n in 0..HEAD_WORDS + ENTRY_WORDS * base {
        row[n] = words[n];
    }
    row
}

// The records behind a base of so many entries, if each has a kind.
fn log_in(
    words: &[u64; ROW_WORDS],
    base: usize,
    records: Records,
) -> Option<ArrayVec<Record, MAX_RECORDS>>
    requires few { records.count ≤ MAX_RECORDS }
    requires room { HEAD_WORDS + ENTRY_WORDS * (base + records.count) ≤ ROW_WORDS }
    ensures counts { IfSome result (λ log. counted log.items ≡ records) }
    ensures words { IfSome result (λ log. (page : PlainPage) → BeginsWith words.now (page_words page)
        → base ≡ length page.entries → BeginsWith words.now (row_words page log.items)) }
    ensures none { IfNone result ((log : List Record) → counted log ≡ records → ⊥) }
{
    let mut log = ArrayVec::new();
    let mut told = Records { count: 0, kinds: 0 };
    for older in 0..records.count {
        let record = record_at(words, base, records, older);
        told = told.with(record.kind);
        log.push(record);
    }
    if told == records { Some(log) } else { None }
}

// Applies the records to a page, the oldest first, as long as each fits. Returns whether all did.
fn apply_all(page: &mut Page, log: &[Record]) -> bool
    ensures fit { IsTrue result → AllFit MAX_FAN page.old log.now }
    ensures page { IsTrue result → page.new ≡ page_with page.old log.now }
    ensures unfit { IsFalse result → AllFit MAX_FAN page.old log.now → ⊥ }
{
    for change in log {
        if !fits(page, change) {
            return false;
        }
        change.apply(page);
    }
    true
}

// Whether the record fits the page.
fn fits(page: &Page, change: &Record) -> bool
    ensures { IsTrue result ↔ Fits MAX_FAN page.now change.now }
{
    // Read for the proof: a pointer is a word.
    let _pointer = change.pointer;
    page.level == 0 && finds(page, change.kind, change.key)
}

// Whether the page has what a change of this kind finds.
fn finds(page: &Page, kind: Kind, key: u64) -> bool
    ensures { IsTrue result ↔ Finds MAX_FAN page.now key kind }
{
    let found = page.look(key);
    match kind {
        Kind::Replaced => found.is_some(),
        Kind::Added => found.is_none() && page.items.len() < MAX_FAN && is_key_of(page, key),
        Kind::Removed => found.is_some(),
    }
}

// Whether the key is one of the page's.
fn is_key_of(page: &Page, key: u64) -> bool
    ensures { IsTrue result ↔ IsKeyOf page.now key }
{
    is_above(key, page.floor) && key <= page.high
}
