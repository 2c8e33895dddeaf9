//! Copies of the entries of a leaf whose row has records that add or remove keys. They are made beside the caller's slice, which may be
//! shorter than they are, and of which no place is touched that isn't filled.
ghost use Rattle.std.specs.Prelude.{◌≡◌, ℕ, ◌+◌, ◌<◌, ◌≤◌, List, Some, IfSome, length, slice_get, take};
ghost use Rattle.blink_batch.specs.declared.Entry.{Entry};
ghost use Rattle.blink_page.specs.{PlainPage};
ghost use Rattle.blink_rows.specs.{row_in};
ghost use Rattle.blink_live.specs.Editing.{pointers_in};
ghost use Rattle.blink_live.specs.Scanning.{IsCopied, IsFilled, IsLeafEnd, stop_of};
ghost use Rattle.blink_live.specs.Seats.{IsPassSeat, IsSameSeat, ReadsLeaf, ReadsVersion};
ghost use Rattle.blink_live.specs.Views.{known_of};
ghost use Rattle.blink_live.specs.Words.{IsRowNumber};

use crate::edit::set_entry;
use crate::live::Live;
use crate::scan::{KeyRange, Scanned};
use crate::view::View;
use atomic_table::Seat;
use blink_batch::Entry;
use blink_rows::layout::ENTRY_WORDS;
use blink_rows::{HEAD_WORDS, ROW_WORDS, row_in};

/// The greatest number of entries and records in a row.
pub(crate) const ROW_ENTRIES: usize = (ROW_WORDS - HEAD_WORDS) / ENTRY_WORDS;

/// An entry to begin a copy with.
pub(crate) const NO_ENTRY: Entry = Entry { key: 0, pointer: 0 };

impl Live {
    // Copies entries of the leaf that the seat reads: those of the range, and as many as there are places. The function is out of line, so
    // that no other leaf's copy clears room for this one.
    #[inline(never)]
    pub(crate) fn copy_changed(
        &self,
        seat: &mut Seat<u8, View>,
        word: u64,
        range: KeyRange,
        into: &mut [Entry],
    ) -> Scanned
        requires seat { IsPassSeat self.now seat.old.table_id seat.old.me }
        requires row { IsRowNumber self.now.counts (row_in word) }
        requires leaf { ReadsLeaf range.lo word seat.old.me }
        requires range { range.lo ≤ range.hi }
        requires some_place { 1 ≤ length into.old }
        ensures same { IsSameSeat seat.old seat.new }
        ensures copied { (entries : List Entry) × IsFilled entries into.old into.new
            × (result.filled ≡ length entries)
            × IsCopied (known_of seat.old.me.0) range.lo (stop_of range.hi result.next) entries }
        ensures further { IfSome result.next (λ next. (range.lo < next) × (next ≤ range.hi)) }
    {
        let mut leaf = [NO_ENTRY; ROW_ENTRIES];
        let copied = self.copy_edited(seat, word, range, &mut leaf);
        give(&leaf[..copied.filled], copied.next, into)
    }

    // Copies the entries of the leaf that the seat reads, those whose keys are in the range: the base's first, to which the records are
    // applied then. It returns their number, and the key behind the leaf, if the range goes on there.
    pub(crate) fn copy_edited(
        &self,
        seat: &mut Seat<u8, View>,
        word: u64,
        range: KeyRange,
        leaf: &mut [Entry],
    ) -> Scanned
        requires seat { IsPassSeat self.now seat.old.table_id seat.old.me }
        requires row { IsRowNumber self.now.counts (row_in word) }
        requires page { (page : PlainPage) × ReadsVersion seat.old.me word page
            × (range.lo ≤ page.high) }
        requires range { range.lo ≤ range.hi }
        requires room { ROW_ENTRIES ≤ length leaf.old }
        ensures same { IsSameSeat seat.old seat.new }
        ensures width { length leaf.new ≡ length leaf.old }
        ensures within { result.filled ≤ length leaf.old }
        ensures copied { (page : PlainPage) → ReadsVersion seat.old.me word page
            → IsCopied (pointers_in page) range.lo (stop_of range.hi result.next)
            (take result.filled leaf.new) }
        ensures ends { (page : PlainPage) → ReadsVersion seat.old.me word page
            → IsLeafEnd range.hi page.high result.next }
    {
        let KeyRange { lo, hi } = range;
        let copied = self.copy_row(seat, row_in(word), lo, hi, leaf);
        let last = match copied.next {
            Some(next) => next - 1,
            None => hi,
        };
        let filled = self.edit_in(seat, word, KeyRange { lo, hi: last }, leaf, copied.filled);
        Scanned {
            filled,
            next: copied.next,
        }
    }
}

// Gives the first of a leaf's entries, as many as there are places. A scan that was given all goes on from `next`, and any other one from
// the key of the first entry for which there was no place.
pub(crate) fn give(entries: &[Entry], next: Option<u64>, into: &mut [Entry]) -> Scanned
    ensures filled { IsFilled (take result.filled entries.now) into.old into.new }
    ensures within { result.filled ≤ length entries.now }
    ensures all { result.filled ≡ length entries.now → result.next ≡ next }
    ensures some { (e : Entry) → slice_get entries.now result.filled ≡ Some e
        → (result.filled ≡ length into.old) × (result.next ≡ Some e.key) }
{
    let mut filled = 0;
    for entry in entries {
        if filled == into.len() {
            return Scanned {
                filled,
                next: Some(entry.key),
            };
        }
        set_entry(&mut into[filled], entry.key, entry.pointer);
        filled += 1;
    }
    Scanned { filled, next }
}
