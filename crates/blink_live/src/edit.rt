//! The records of a leaf, applied to entries that were copied of the base behind which they stand, the oldest first.
ghost use Rattle.std.specs.Prelude.{◌≡◌, ℕ, ◌+◌, ◌*◌, ◌<◌, ◌≤◌, Option, length, take};
ghost use Rattle.blink_batch.specs.{IsAscending, entry};
ghost use Rattle.blink_page.specs.{PlainPage};
ghost use Rattle.blink_rows.specs.{records_in, row_in};
ghost use Rattle.blink_live.specs.declared.read.TheConstants.{LINE};
ghost use Rattle.blink_live.specs.Editing.{IsAdded, IsEdited, IsPlace, IsRemoved, IsReplaced, StaysCopied, StaysCopiedWith, lesser, pointers_in};
ghost use Rattle.blink_live.specs.Scanning.{IsCopied};
ghost use Rattle.blink_live.specs.Seats.{IsPassSeat, IsSameSeat, ReadsVersion};
ghost use Rattle.blink_live.specs.Words.{IsRowNumber};

use crate::live::Live;
use crate::read::LINE;
use crate::scan::KeyRange;
use crate::view::View;
use atomic_table::Seat;
use blink_batch::Entry;
use blink_rows::layout::{COUNT, ENTRY_WORDS};
use blink_rows::{HEAD_WORDS, Kind, Record, records_in, row_in};

impl Live {
    // Gives the entries that were copied of the base the pointers that the records say. All records are replacements, so there are no more
    // entries and no fewer then.
    pub(crate) fn replace_in(&self, seat: &mut Seat<u8, View>, word: u64, copied: &mut [Entry])
        requires seat { IsPassSeat self.now seat.old.table_id seat.old.me }
        requires row { IsRowNumber self.now.counts (row_in word) }
        requires page { (page : PlainPage) × ReadsVersion seat.old.me word page }
        requires kinds { (records_in word).kinds ≡ 0 }
        ensures same { IsSameSeat seat.old seat.new }
        ensures width { length copied.new ≡ length copied.old }
        ensures copied { (page : PlainPage) → (is : ReadsVersion seat.old.me word page)
            → StaysCopied (pointers_in is.base) (pointers_in page) copied.old copied.new }
    {
        let start = self.row_place(row_in(word));
        let base = self.load_word(seat, start, COUNT) as usize;
        for older in 0..records_in(word).count {
            let at = HEAD_WORDS + ENTRY_WORDS * (base + usize::from(older));
            let key = self.load_word(seat, start, at);
            let pointer = self.load_word(seat, start, at + 1);
            replace_one(copied, key, pointer);
        }
    }

    // Applies the records to the entries that were copied of the base, those whose keys are in the range. They are the first of the slice,
    // which has room for an entry more by each record. Returns how many there are then.
    pub(crate) fn edit_in(
        &self,
        seat: &mut Seat<u8, View>,
        word: u64,
        range: KeyRange,
        leaf: &mut [Entry],
        copied: usize,
    ) -> usize
        requires seat { IsPassSeat self.now seat.old.table_id seat.old.me }
        requires row { IsRowNumber self.now.counts (row_in word) }
        requires page { (page : PlainPage) × ReadsVersion seat.old.me word page }
        requires room { copied + (records_in word).count ≤ length leaf.old }
        ensures same { IsSameSeat seat.old seat.new }
        ensures width { length leaf.new ≡ length leaf.old }
        ensures within { result ≤ length leaf.old }
        ensures copied { (page : PlainPage) → (is : ReadsVersion seat.old.me word page)
            → IsCopied (pointers_in is.base) range.lo (range.hi + 1) (take copied leaf.old)
            → IsCopied (pointers_in page) range.lo (range.hi + 1) (take result leaf.new) }
    {
        let start = self.row_place(row_in(word));
        let base = self.load_word(seat, start, COUNT) as usize;
        let records = records_in(word);
        let mut filled = copied;
        for older in 0..records.count {
            let at = HEAD_WORDS + ENTRY_WORDS * (base + usize::from(older));
            let key = self.load_word(seat, start, at);
            let pointer = self.load_word(seat, start, at + 1);
            if range.lo <= key && key <= range.hi {
                let kind = records.kind(older);
                filled = edit_one(leaf, filled, &Record { kind, key, pointer });
            }
        }
        filled
    }
}

// Applies a record to the copied entries, which are the first of the slice. Returns how many there are then.
fn edit_one(leaf: &mut [Entry], filled: usize, change: &Record) -> usize
    requires room { filled < length leaf.old }
    ensures width { length leaf.new ≡ length leaf.old }
    ensures one_more { result ≤ filled + 1 }
    ensures copied { (known later : ℕ → Option ℕ)
        → IsEdited change.now.kind change.now.key change.now.pointer known later
        → StaysCopiedWith change.now.key known later (take filled leaf.old) (take result leaf.new) }
{
    match change.kind {
        Kind::Replaced => {
            replace_one(&mut leaf[..filled], change.key, change.pointer);
            filled
        }
        Kind::Added => {
            add_one(leaf, filled, change.key, change.pointer);
            filled + 1
        }
        Kind::Removed => remove_one(leaf, filled, change.key),
    }
}

// Gives the key's entry this pointer, if it is among the copied ones.
fn replace_one(copied: &mut [Entry], key: u64, pointer: u64)
    ensures width { length copied.new ≡ length copied.old }
    ensures copied { (known later : ℕ → Option ℕ) → IsReplaced key pointer known later
        → StaysCopied known later copied.old copied.new }
{
    let at = place_in(copied, key);
    if at < copied.len() && copied[at].key == key {
        copied[at].pointer = pointer;
    }
}

// Puts an entry among the copied ones, which are the first of the slice.
fn add_one(leaf: &mut [Entry], filled: usize, key: u64, pointer: u64)
    requires room { filled < length leaf.old }
    ensures width { length leaf.new ≡ length leaf.old }
    ensures copied { (known later : ℕ → Option ℕ) → IsAdded key pointer known later
        → StaysCopiedWith key known later (take filled leaf.old) (take (filled + 1) leaf.new) }
{
    let mut at = filled;
    while at > 0 {
        let before = leaf[at - 1].key;
        if before < key {
            break;
        }
        let pointer = leaf[at - 1].pointer;
        set_entry(&mut leaf[at], before, pointer);
        at -= 1;
    }
    leaf[at] = Entry { key, pointer };
}

// Takes the key's entry out of the copied ones, which are the first of the slice. Returns how many there are then.
fn remove_one(leaf: &mut [Entry], filled: usize, key: u64) -> usize
    requires within { filled ≤ length leaf.old }
    ensures width { length leaf.new ≡ length leaf.old }
    ensures no_more { result ≤ filled }
    ensures copied { (known later : ℕ → Option ℕ) → IsRemoved key known later
        → StaysCopiedWith key known later (take filled leaf.old) (take result leaf.new) }
{
    let at = place_in(&leaf[..filled], key);
    if at == filled {
        return filled;
    }
    for next in at + 1..filled {
        let Entry { key, pointer } = leaf[next];
        set_entry(&mut leaf[next - 1], key, pointer);
    }
    filled - 1
}

// Makes an entry this one, by a store of its key and a store of its pointer. Entries were stored so just before they move. A processor that
// loads both at once, as to move an entry whole, waits until such stores are done.
pub(crate) fn set_entry(place: &mut Entry, key: u64, pointer: u64)
    ensures { place.new ≡ entry key pointer }
{
    place.key = key;
    place.pointer = pointer;
}

// The number of entries whose keys are below this one. It compares the last key of each line of the cache, and then four keys, all without a
// branch on a key, since none could be foretold.
fn place_in(entries: &[Entry], key: u64) -> usize
    ensures place { IsAscending entries.now → IsPlace key entries.now result }
    ensures within { result ≤ length entries.now }
{
    if entries.len() < LINE {
        return count_below(entries, key);
    }
    let first = (LINE * lines_below(entries, key)).min(entries.len() - LINE);
    first
        + one_if_below(entries, first, key)
        + one_if_below(entries, first + 1, key)
        + one_if_below(entries, first + 2, key)
        + one_if_below(entries, first + 3, key)
}

// The number of whole lines before that place.
fn lines_below(entries: &[Entry], key: u64) -> usize
    ensures few { LINE * result ≤ length entries.now }
    ensures lines { IsAscending entries.now → (LINE * result ≤ lesser key entries.now)
        × (lesser key entries.now < LINE * result + LINE) }
{
    let mut lines = 0;
    for line in 0..entries.len() / LINE {
        lines += one_if_below(entries, LINE * line + LINE - 1, key);
    }
    lines
}

// 1 if the key of the entry at this place is below `key`, and 0 if not.
fn one_if_below(entries: &[Entry], place: usize, key: u64) -> usize
    requires place { place < length entries.now }
    ensures at_most { result ≤ 1 }
    ensures one { IsAscending entries.now → (place < lesser key entries.now → result ≡ 1)
        × (lesser key entries.now ≤ place → result ≡ 0) }
{
    usize::from(entries[place].key < key)
}

// The number of entries whose keys are below this one, by one after another.
fn count_below(entries: &[Entry], key: u64) -> usize
    ensures count { result ≡ lesser key entries.now }
{
    let mut count = 0;
    for entry in entries {
        count += usize::from(entry.key < key);
    }
    count
}
