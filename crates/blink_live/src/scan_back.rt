//! Backward scans: the entries of a range of keys in descending order, while other passes change the tree.
//!
//! A backward scan goes down to the leaf of the greatest key that it has still to look at, copies that leaf's entries from behind,
//! and goes on at the leaf's floor. The keys of a leaf are those above its floor, so the floor is a key of the leaf to the left. A
//! page that once was a leaf keeps its floor, so nothing is passed over or reported twice, even if a leaf has been split or emptied
//! meanwhile. A leaf without a floor is the leftmost. The entries of one leaf are those of one time, and those of the leaf to the
//! left are of a later one.
ghost use Rattle.std.specs.Prelude.{◌≡◌, ◌+◌, ◌<◌, ◌≤◌, ℕ, List, Option, Some, IfNone, IfSome, length, take, drop, reverse};
ghost use Rattle.blink_batch.specs.declared.Entry.{Entry};
ghost use Rattle.blink_page.specs.{PlainPage};
ghost use Rattle.blink_page.specs.declared.limits.TheConstants.{MAX_FAN};
ghost use Rattle.blink_rows.specs.{row_in};
ghost use Rattle.blink_rows.specs.declared.limits.TheConstants.{MAX_RECORDS, ROW_WORDS};
ghost use Rattle.blink_live.specs.Finding.{IsIdle};
ghost use Rattle.blink_live.specs.Handles.{IsPassOf, IsSameBesideSeen, KnowsItsKeys, keys_of, opening_of, seen_of, share_of};
ghost use Rattle.blink_live.specs.Scanning.{IsCopied, IsFilled, SaysOfKeys, StoppedFull};
ghost use Rattle.blink_live.specs.ScanningBack.{HasScannedBack, IsReportBack, ReportBackLaw, start_of};
ghost use Rattle.blink_live.specs.Seats.{HasLesser, HasSameNumber, IsPassSeat, IsSameSeat, ReadsLeaf, ReadsPage};
ghost use Rattle.blink_live.specs.Views.{known_of};
ghost use Rattle.blink_live.specs.Words.{IsRowNumber, row_start, word_count};

use crate::copy::{NO_ENTRY, ROW_ENTRIES, give};
use crate::live::{Live, Pass};
use crate::scan::{KeyRange, Scanned};
use crate::view::View;
use atomic_table::Seat;
use blink_batch::Entry;
use blink_rows::layout::{COUNT, ENTRY_WORDS, FLOOR, HAS_FLOOR};
use blink_rows::{HEAD_WORDS, records_in, row_in};

impl Live {
    /// Reports the entries whose keys are from `lo` to `hi`, both included, in descending order, whatever other passes do at the
    /// same time. The keys may be anybody's. It fills `into` from the first place on, and leaves the other places as they were. It
    /// stops at the end of the range; or where the slice is full, and then `next` tells the key from which another backward scan
    /// goes on. A range is empty if `lo > hi`. The last `n` entries up to a key are those of
    /// `scan_back(pass, 0, key, &mut into[..n])`.
    ///
    /// The scan reads leaf after leaf, each at one time, from the right. So what it says of a key is what the changes up to some
    /// time in the call leave of it, and of a smaller key what the changes up to that time or a later one leave. A key that is
    /// present throughout the call is reported, and a key that is absent throughout isn't. Of the pass's own keys the report is
    /// exact. The call takes no memory, waits for nobody, and returns. It goes down the tree once for each leaf of the range.
    pub fn scan_back(&self, pass: &mut Pass, lo: u64, hi: u64, into: &mut [Entry]) -> Scanned
        requires its_own { IsPassOf self.now pass.old }
        ensures report { IsReportBack (opening_of self.now) (seen_of pass.old) (seen_of pass.new)
            (start_of lo result.next) hi (take result.filled into.new) }
        ensures own { SaysOfKeys (keys_of pass.old) (share_of pass.old)
            (start_of lo result.next) (hi + 1) (take result.filled into.new) }
        ensures stopped { IfSome result.next (StoppedFull lo hi (length into.old) result.filled) }
        ensures filled { result.filled ≤ length into.old }
        ensures others { drop result.filled into.new ≡ drop result.filled into.old }
        ensures knows { KnowsItsKeys self.now pass.new }
        ensures same { IsSameBesideSeen pass.old pass.new }
    {
        let Pass {
            seat,
            keys: _,
            rows: _,
            pages: _,
        } = pass;
        self.look_up(seat);
        self.scan_back_by(seat, lo, hi, into)
    }

    /// Scans backwards by a seat that has no operation under way.
    pub fn scan_back_by(
        &self,
        seat: &mut Seat<u8, View>,
        lo: u64,
        hi: u64,
        into: &mut [Entry],
    ) -> Scanned
        requires seat { IsPassSeat self.now seat.old.table_id seat.old.me }
        requires idle { IsIdle seat.old.me.0 }
        ensures same_table { HasSameNumber seat.old seat.new }
        ensures scanned { (entries : List Entry) × IsFilled entries into.old into.new
            × (result.filled ≡ length entries)
            × HasScannedBack (start_of lo result.next) hi entries seat.old.me seat.new.me }
        ensures stopped { IfSome result.next (StoppedFull lo hi (length into.old) result.filled) }
    {
        if lo > hi {
            return Scanned {
                filled: 0,
                next: None,
            };
        }
        let mut from = hi;
        let mut filled = 0;
        while filled < into.len() {
            let (_, word) = self.come_to_leaf(seat, from, None);
            let run = self.copy_leaf_back(seat, word, lo, from, &mut into[filled..]);
            filled += run.filled;
            match run.next {
                Some(next) => from = next,
                None => return Scanned { filled, next: None },
            }
        }
        Scanned {
            filled,
            next: Some(from),
        }
    }

    // Copies entries of the leaf that the seat reads, from behind: those from `from` on down to `lo`, and as many as there are places.
    fn copy_leaf_back(
        &self,
        seat: &mut Seat<u8, View>,
        word: u64,
        lo: u64,
        from: u64,
        into: &mut [Entry],
    ) -> Scanned
        requires seat { IsPassSeat self.now seat.old.table_id seat.old.me }
        requires row { IsRowNumber self.now.counts (row_in word) }
        requires leaf { ReadsLeaf from word seat.old.me }
        requires range { lo ≤ from }
        requires some_place { 1 ≤ length into.old }
        ensures same { IsSameSeat seat.old seat.new }
        ensures copied { (entries : List Entry) × IsFilled (reverse entries) into.old into.new
            × (result.filled ≡ length entries)
            × IsCopied (known_of seat.old.me.0) (start_of lo result.next) (from + 1) entries }
        ensures further { IfSome result.next (λ next. (lo ≤ next) × (next < from)) }
    {
        if records_in(word).count == 0 {
            return self.copy_row_back(seat, row_in(word), lo, from, into);
        }
        self.copy_changed_back(seat, word, lo, from, into)
    }

    // The same of a leaf that has records. The function is out of line, so that no other leaf's copy clears room for this one.
    #[inline(never)]
    fn copy_changed_back(
        &self,
        seat: &mut Seat<u8, View>,
        word: u64,
        lo: u64,
        from: u64,
        into: &mut [Entry],
    ) -> Scanned
        requires seat { IsPassSeat self.now seat.old.table_id seat.old.me }
        requires row { IsRowNumber self.now.counts (row_in word) }
        requires leaf { ReadsLeaf from word seat.old.me }
        requires range { lo ≤ from }
        requires some_place { 1 ≤ length into.old }
        ensures same { IsSameSeat seat.old seat.new }
        ensures copied { (entries : List Entry) × IsFilled (reverse entries) into.old into.new
            × (result.filled ≡ length entries)
            × IsCopied (known_of seat.old.me.0) (start_of lo result.next) (from + 1) entries }
        ensures further { IfSome result.next (λ next. (lo ≤ next) × (next < from)) }
    {
        let mut leaf = [NO_ENTRY; ROW_ENTRIES];
        let range = KeyRange { lo, hi: from };
        let copied = self.copy_edited(seat, word, range, &mut leaf);
        let entries = &mut leaf[..copied.filled];
        entries.reverse();
        let start = self.row_place(row_in(word));
        let floor = self.load_floor(seat, start);
        let next = not_below(lo, floor);
        give(entries, next, into)
    }

    // The same of a leaf that has no records.
    fn copy_row_back(
        &self,
        seat: &mut Seat<u8, View>,
        row: u64,
        lo: u64,
        from: u64,
        into: &mut [Entry],
    ) -> Scanned
        requires seat { IsPassSeat self.now seat.old.table_id seat.old.me }
        requires row { IsRowNumber self.now.counts row }
        requires leaf { (leaf : PlainPage) × ReadsPage seat.old.me row leaf
            × HasLesser (known_of seat.old.me.0) from leaf }
        requires range { lo ≤ from }
        requires some_place { 1 ≤ length into.old }
        ensures same { IsSameSeat seat.old seat.new }
        ensures copied { (entries : List Entry) × IsFilled (reverse entries) into.old into.new
            × (result.filled ≡ length entries)
            × IsCopied (known_of seat.old.me.0) (start_of lo result.next) (from + 1) entries }
        ensures further { IfSome result.next (λ next. (lo ≤ next) × (next < from)) }
    {
        let start = self.row_place(row);
        let count = self.load_word(seat, start, COUNT) as usize;
        let mut filled = 0;
        for place in (0..count).rev() {
            let at = HEAD_WORDS + ENTRY_WORDS * place;
            let key = self.load_word(seat, start, at);
            if key < lo {
                return Scanned { filled, next: None };
            }
            if key <= from {
                if filled == into.len() {
                    let next = Some(key);
                    return Scanned { filled, next };
                }
                let pointer = self.load_word(seat, start, at + 1);
                into[filled] = Entry { key, pointer };
                filled += 1;
            }
        }
        let next = not_below(lo, self.load_floor(seat, start));
        Scanned { filled, next }
    }

    // Loads the floor of the page whose row begins at `start`.
    fn load_floor(&self, seat: &mut Seat<u8, View>, start: usize) -> Option<u64>
        requires seat { IsPassSeat self.now seat.old.table_id seat.old.me }
        requires inside { start + ROW_WORDS ≤ word_count self.now.counts }
        ensures same { IsSameSeat seat.old seat.new }
        ensures floor { (row : ℕ) (page : PlainPage) → start ≡ row_start self.now.counts row
            → ReadsPage seat.old.me row page → result ≡ page.floor }
    {
        let has_floor = self.load_word(seat, start, HAS_FLOOR);
        if has_floor == 0 {
            return None;
        }
        Some(self.load_word(seat, start, FLOOR))
    }
}

// The leaf's floor, unless that is below `lo`.
fn not_below(lo: u64, floor: Option<u64>) -> Option<u64>
    ensures some { IfSome result (λ next. (floor ≡ Some next) × (lo ≤ next)) }
    ensures none { IfNone result (IfSome floor (λ below. below < lo)) }
{
    match floor {
        Some(next) => { if next < lo { None } else { Some(next) } }
        None => None,
    }
}

/// States what a backward report tells of each key, whatever the fronts are.
pub fn backward_reports_tell()
    ensures { ReportBackLaw }
{}
