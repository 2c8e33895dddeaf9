//! Scans: the entries of a range of keys in ascending order, while other passes change the tree.
//!
//! A scan goes from leaf to leaf. To the first leaf it descends, with a find for the first key, and then it follows the right links.
//! A scan of one entry mostly ends in its first leaf, so there it notes no leaf, and descends once more if it goes on. A page that
//! once was a leaf stays one and keeps its floor, so a link that the seat has read leads to the leaf of the next key, unless that leaf
//! has been split since; then the scan descends again. The load of the leaf's page word tells the seat the state of each of the leaf's
//! keys, and nobody stores to the row that it names while the scan reads there. So the entries of one leaf are those of one time;
//! those of the leaf to the right are of a later one.
ghost use Rattle.std.specs.Prelude.{◌≡◌, ◌+◌, ◌<◌, ◌≤◌, ℕ, List, Option, IfSome, length, take, drop};
ghost use Rattle.blink_batch.specs.declared.Entry.{Entry};
ghost use Rattle.blink_page.specs.{PlainPage};
ghost use Rattle.blink_page.specs.declared.limits.TheConstants.{MAX_FAN};
ghost use Rattle.blink_rows.specs.{row_in};
ghost use Rattle.blink_rows.specs.declared.limits.TheConstants.{ROW_WORDS};
ghost use Rattle.blink_live.specs.Along.{GoesAlong, IsNotedLeaf};
ghost use Rattle.blink_live.specs.Finding.{HasSearched, IsIdle};
ghost use Rattle.blink_live.specs.Handles.{IsPassOf, IsSameBesideSeen, KnowsItsKeys, keys_of, opening_of, seen_of, share_of};
ghost use Rattle.blink_live.specs.Scanning.{BeginsFrom, HasScanned, IsCopied, IsFilled, IsLeafEnd, IsReport, ReportLaw, SaysOfKeys, StoppedFull, stop_of};
ghost use Rattle.blink_live.specs.Seats.{HasSameNumber, HasStates, IsPassSeat, IsSameSeat, ReadsLeaf, ReadsPage};
ghost use Rattle.blink_live.specs.Views.{known_of};
ghost use Rattle.blink_live.specs.Words.{IsRowNumber, row_start, word_count};

use crate::live::{Live, Pass};
use crate::read::link_of;
use crate::rule::GoAlong;
use crate::view::View;
use atomic_table::Seat;
use blink_batch::Entry;
use blink_rows::layout::{COUNT, ENTRY_WORDS, HIGH_KEY, RIGHT_LINK};
use blink_rows::{HEAD_WORDS, records_in, row_in};

/// How far a scan came.
#[derive(Clone, Copy, Debug, PartialEq, Eq)]
pub struct Scanned {
    /// The number of places that the scan filled, from the first on.
    pub filled: usize,
    /// The key from which the next scan goes on. `None` if the scan has come to the end of its range.
    pub next: Option<u64>,
}

/// The keys that are copied of a leaf: those from `lo` to `hi`, both included.
#[derive(Clone, Copy)]
pub(crate) struct KeyRange {
    pub lo: u64,
    pub hi: u64,
}

impl Live {
    /// Reports the entries whose keys are from `lo` to `hi`, both included, in ascending order, whatever other passes do at the
    /// same time. The keys may be anybody's. It fills `into` from the first place on, and leaves the other places as they were. It
    /// stops at the end of the range; or where the slice is full, and then `next` tells the key from which another scan goes on.
    /// A range is empty if `lo > hi`. The first `n` entries from a key on are those of
    /// `scan(pass, key, u64::MAX, &mut into[..n])`.
    ///
    /// The scan reads leaf after leaf, each at one time, from the left. So what it says of a key is what the changes up to some
    /// time in the call leave of it, and of a greater key what the changes up to that time or a later one leave. A key that is
    /// present throughout the call is reported, and a key that is absent throughout isn't. Of the pass's own keys the report is
    /// exact. The call takes no memory, waits for nobody, and returns.
    pub fn scan(&self, pass: &mut Pass, lo: u64, hi: u64, into: &mut [Entry]) -> Scanned
        requires its_own { IsPassOf self.now pass.old }
        ensures report { IsReport (opening_of self.now) (seen_of pass.old) (seen_of pass.new)
            lo (stop_of hi result.next) (take result.filled into.new) }
        ensures own { SaysOfKeys (keys_of pass.old) (share_of pass.old)
            lo (stop_of hi result.next) (take result.filled into.new) }
        ensures stopped { IfSome result.next (StoppedFull lo hi (length into.old) result.filled) }
        ensures filled { result.filled ≤ length into.old }
        ensures others { drop result.filled into.new ≡ drop result.filled into.old }
        ensures knows { KnowsItsKeys self.now pass.new }
        ensures same { IsSameBesideSeen pass.old pass.new }
    {
        let Pass {
            seat,
            keys: _,
            rows: _,
            pages: _,
        } = pass;
        self.look_up(seat);
        self.scan_by(seat, lo, hi, into)
    }

    /// Scans by a seat that has no operation under way.
    pub fn scan_by(
        &self,
        seat: &mut Seat<u8, View>,
        lo: u64,
        hi: u64,
        into: &mut [Entry],
    ) -> Scanned
        requires seat { IsPassSeat self.now seat.old.table_id seat.old.me }
        requires idle { IsIdle seat.old.me.0 }
        ensures same_table { HasSameNumber seat.old seat.new }
        ensures scanned { (entries : List Entry) × IsFilled entries into.old into.new
            × (result.filled ≡ length entries)
            × HasScanned lo (stop_of hi result.next) entries seat.old.me seat.new.me }
        ensures stopped { IfSome result.next (StoppedFull lo hi (length into.old) result.filled) }
    {
        if lo > hi {
            return Scanned {
                filled: 0,
                next: None,
            };
        }
        let mut from = lo;
        let mut filled = 0;
        let mut link = None;
        let one = into.len() == 1;
        while filled < into.len() {
            let alone = one && from == lo;
            let (run, right) = self.scan_leaf(seat, from, hi, &mut into[filled..], alone, link);
            filled += run.filled;
            link = right;
            match run.next {
                Some(next) => from = next,
                None => return Scanned { filled, next: None },
            }
        }
        Scanned {
            filled,
            next: Some(from),
        }
    }

    // Reports the entries of one leaf: those from `from` on, up to `hi`, and as many as there are places. It also returns the leaf to
    // the right, if it has noted that. It looks at `link` first. A leaf that is read `alone` it finds by a descent without a note.
    fn scan_leaf(
        &self,
        seat: &mut Seat<u8, View>,
        from: u64,
        hi: u64,
        into: &mut [Entry],
        alone: bool,
        link: Option<u32>,
    ) -> (Scanned, Option<u32>)
        requires seat { IsPassSeat self.now seat.old.table_id seat.old.me }
        requires idle { IsIdle seat.old.me.0 }
        requires range { from ≤ hi }
        requires some_place { 1 ≤ length into.old }
        requires link { IfSome link (IsNotedLeaf self.now.counts seat.old.me.0.look) }
        ensures same_table { HasSameNumber seat.old seat.new }
        ensures scanned { (entries : List Entry) × IsFilled entries into.old into.new
            × (result.0.filled ≡ length entries)
            × HasScanned from (stop_of hi result.0.next) entries seat.old.me seat.new.me }
        ensures further { IfSome result.0.next (λ next. (from < next) × (next ≤ hi)) }
        ensures right { IfSome result.1 (IsNotedLeaf self.now.counts seat.new.me.0.look) }
    {
        let (word, right) = self.come_along(seat, from, alone, link);
        (self.copy_leaf(seat, word, from, hi, into), right)
    }

    // Brings the seat to the leaf of the key: by the link, if that leads there; else by a descent. It returns the leaf's page word,
    // and the leaf to the right, if there is one and the seat has noted it.
    fn come_along(
        &self,
        seat: &mut Seat<u8, View>,
        key: u64,
        alone: bool,
        link: Option<u32>,
    ) -> (u64, Option<u32>)
        requires seat { IsPassSeat self.now seat.old.table_id seat.old.me }
        requires idle { IsIdle seat.old.me.0 }
        requires link { IfSome link (IsNotedLeaf self.now.counts seat.old.me.0.look) }
        ensures same_table { HasSameNumber seat.old seat.new }
        ensures searched { HasSearched seat.old.me seat.new.me }
        ensures row { IsRowNumber self.now.counts (row_in result.0) }
        ensures leaf { ReadsLeaf key result.0 seat.new.me }
        ensures right { IfSome result.1 (IsNotedLeaf self.now.counts seat.new.me.0.look) }
    {
        if alone {
            let (_, word) = self.come_to_leaf(seat, key, None);
            return (word, None);
        }
        let Some(number) = link else {
            return self.come_down(seat, key);
        };
        if let Some(found) = self.follow(seat, key, number) {
            return found;
        }
        self.come_down(seat, key)
    }

    // The same by a descent. It reads the leaf's page word once more, so that the leaf to the right is noted.
    fn come_down(&self, seat: &mut Seat<u8, View>, key: u64) -> (u64, Option<u32>)
        requires seat { IsPassSeat self.now seat.old.table_id seat.old.me }
        requires idle { IsIdle seat.old.me.0 }
        ensures same_table { HasSameNumber seat.old seat.new }
        ensures searched { HasSearched seat.old.me seat.new.me }
        ensures row { IsRowNumber self.now.counts (row_in result.0) }
        ensures leaf { ReadsLeaf key result.0 seat.new.me }
        ensures right { IfSome result.1 (IsNotedLeaf self.now.counts seat.new.me.0.look) }
    {
        let (leaf, word) = self.come_to_noted(seat, key);
        if leaf.word == 0 {
            return (word, None);
        }
        if let Some(found) = self.follow(seat, key, leaf.number) {
            return found;
        }
        let (_, word) = self.come_to_leaf(seat, key, None);
        (word, None)
    }

    // Reads the leaf of this number, which the seat has noted. If the key belongs there, it returns the leaf's page word and the leaf to
    // the right, if there is one.
    fn follow(&self, seat: &mut Seat<u8, View>, key: u64, number: u32) -> Option<(u64, Option<u32>)>
        requires seat { IsPassSeat self.now seat.old.table_id seat.old.me }
        requires idle { IsIdle seat.old.me.0 }
        requires leaf { IsNotedLeaf self.now.counts seat.old.me.0.look number }
        ensures same_table { HasSameNumber seat.old seat.new }
        ensures searched { HasSearched seat.old.me seat.new.me }
        ensures row { IfSome result (λ found. IsRowNumber self.now.counts (row_in found.0)) }
        ensures leaf { IfSome result (λ found. ReadsLeaf key found.0 seat.new.me) }
        ensures right { IfSome result (λ found.
            IfSome found.1 (IsNotedLeaf self.now.counts seat.new.me.0.look)) }
    {
        let word = self.go_along(seat, number);
        let row = row_in(word);
        if !self.has_key(seat, row, key) {
            return None;
        }
        let start = self.row_place(row);
        let right = link_of(self.load_word(seat, start, RIGHT_LINK));
        Some((word, right))
    }

    // Loads the page word of a leaf that the seat has noted.
    fn go_along(&self, seat: &mut Seat<u8, View>, number: u32) -> u64
        requires seat { IsPassSeat self.now seat.old.table_id seat.old.me }
        requires idle { IsIdle seat.old.me.0 }
        requires leaf { IsNotedLeaf self.now.counts seat.old.me.0.look number }
        ensures same_table { HasSameNumber seat.old seat.new }
        ensures along { GoesAlong seat.old.me result seat.new.me }
    {
        self.table.shared.load::<GoAlong>(seat, number as usize)
    }

    // Copies entries of the leaf that the seat reads: those from `from` on, up to `hi`, and as many as there are places.
    pub(crate) fn copy_leaf(
        &self,
        seat: &mut Seat<u8, View>,
        word: u64,
        from: u64,
        hi: u64,
        into: &mut [Entry],
    ) -> Scanned
        requires seat { IsPassSeat self.now seat.old.table_id seat.old.me }
        requires row { IsRowNumber self.now.counts (row_in word) }
        requires leaf { ReadsLeaf from word seat.old.me }
        requires range { from ≤ hi }
        requires some_place { 1 ≤ length into.old }
        ensures same { IsSameSeat seat.old seat.new }
        ensures copied { (entries : List Entry) × IsFilled entries into.old into.new
            × (result.filled ≡ length entries)
            × IsCopied (known_of seat.old.me.0) from (stop_of hi result.next) entries }
        ensures further { IfSome result.next (λ next. (from < next) × (next ≤ hi)) }
    {
        let records = records_in(word);
        if records.count == 0 {
            return self.copy_row(seat, row_in(word), from, hi, into);
        }
        // No record adds or removes a key, so the base has the leaf's keys, and the caller's slice gets them at once.
        if records.kinds == 0 {
            let copied = self.copy_row(seat, row_in(word), from, hi, into);
            self.replace_in(seat, word, &mut into[..copied.filled]);
            return copied;
        }
        self.copy_changed(seat, word, KeyRange { lo: from, hi }, into)
    }

    // The same of the page whose row the seat reads, without the records behind it.
    pub(crate) fn copy_row(
        &self,
        seat: &mut Seat<u8, View>,
        row: u64,
        from: u64,
        hi: u64,
        into: &mut [Entry],
    ) -> Scanned
        requires seat { IsPassSeat self.now seat.old.table_id seat.old.me }
        requires row { IsRowNumber self.now.counts row }
        requires leaf { (leaf : PlainPage) × ReadsPage seat.old.me row leaf × (from ≤ leaf.high) }
        requires range { from ≤ hi }
        requires some_place { 1 ≤ length into.old }
        ensures same { IsSameSeat seat.old seat.new }
        ensures copied { (leaf : PlainPage) (known : ℕ → Option ℕ)
            → ReadsPage seat.old.me row leaf
            → HasStates known from leaf
            → (entries : List Entry) × IsFilled entries into.old into.new
            × (result.filled ≡ length entries) × IsCopied known from (stop_of hi result.next) entries }
        ensures within { (leaf : PlainPage) → ReadsPage seat.old.me row leaf
            → stop_of hi result.next ≤ leaf.high + 1 }
        ensures few { (leaf : PlainPage) → ReadsPage seat.old.me row leaf
            → result.filled ≤ length leaf.entries }
        ensures ends { (leaf : PlainPage) → ReadsPage seat.old.me row leaf
            → result.filled < length into.old → IsLeafEnd hi leaf.high result.next }
        ensures further { IfSome result.next (λ next. (from < next) × (next ≤ hi)) }
    {
        let start = self.row_place(row);
        let count = self.load_word(seat, start, COUNT) as usize;
        let high = self.load_word(seat, start, HIGH_KEY);
        let first = self.load_word(seat, start, HEAD_WORDS);
        if count == 0 || count > into.len() || first < from || high >= hi {
            return self.copy_part(seat, row, from, hi, into);
        }
        self.copy_all(seat, start, count, into);
        Scanned {
            filled: count,
            next: Some(high + 1),
        }
    }

    // Copies all entries of the page whose row begins at `start`. Most leaves of a long scan lie in its range, so no key is tested.
    fn copy_all(&self, seat: &mut Seat<u8, View>, start: usize, count: usize, into: &mut [Entry])
        requires seat { IsPassSeat self.now seat.old.table_id seat.old.me }
        requires inside { start + ROW_WORDS ≤ word_count self.now.counts }
        requires few { count ≤ MAX_FAN }
        requires room { count ≤ length into.old }
        ensures same { IsSameSeat seat.old seat.new }
        ensures copied { (row : ℕ) (leaf : PlainPage) → start ≡ row_start self.now.counts row
            → ReadsPage seat.old.me row leaf
            → count ≡ length leaf.entries
            → (from : ℕ) (known : ℕ → Option ℕ) → BeginsFrom from leaf
            → HasStates known from leaf
            → (entries : List Entry) × IsFilled entries into.old into.new
            × (count ≡ length entries) × IsCopied known from (leaf.high + 1) entries }
    {
        for place in 0..count {
            let at = HEAD_WORDS + ENTRY_WORDS * place;
            let key = self.load_word(seat, start, at);
            let pointer = self.load_word(seat, start, at + 1);
            into[place] = Entry { key, pointer };
        }
    }

    // The same of a page that the range may begin or end in, or for whose entries there may be too few places.
    fn copy_part(
        &self,
        seat: &mut Seat<u8, View>,
        row: u64,
        from: u64,
        hi: u64,
        into: &mut [Entry],
    ) -> Scanned
        requires seat { IsPassSeat self.now seat.old.table_id seat.old.me }
        requires row { IsRowNumber self.now.counts row }
        requires leaf { (leaf : PlainPage) × ReadsPage seat.old.me row leaf × (from ≤ leaf.high) }
        requires range { from ≤ hi }
        requires some_place { 1 ≤ length into.old }
        ensures same { IsSameSeat seat.old seat.new }
        ensures copied { (leaf : PlainPage) (known : ℕ → Option ℕ)
            → ReadsPage seat.old.me row leaf
            → HasStates known from leaf
            → (entries : List Entry) × IsFilled entries into.old into.new
            × (result.filled ≡ length entries) × IsCopied known from (stop_of hi result.next) entries }
        ensures within { (leaf : PlainPage) → ReadsPage seat.old.me row leaf
            → stop_of hi result.next ≤ leaf.high + 1 }
        ensures few { (leaf : PlainPage) → ReadsPage seat.old.me row leaf
            → result.filled ≤ length leaf.entries }
        ensures ends { (leaf : PlainPage) → ReadsPage seat.old.me row leaf
            → result.filled < length into.old → IsLeafEnd hi leaf.high result.next }
        ensures further { IfSome result.next (λ next. (from < next) × (next ≤ hi)) }
    {
        let start = self.row_place(row);
        let count = self.load_word(seat, start, COUNT) as usize;
        let mut filled = 0;
        for place in 0..count {
            let at = HEAD_WORDS + ENTRY_WORDS * place;
            let key = self.load_word(seat, start, at);
            if key > hi {
                return Scanned { filled, next: None };
            }
            if key >= from {
                if filled == into.len() {
                    return Scanned {
                        filled,
                        next: Some(key),
                    };
                }
                let pointer = self.load_word(seat, start, at + 1);
                into[filled] = Entry { key, pointer };
                filled += 1;
            }
        }
        let high = self.load_word(seat, start, HIGH_KEY);
        let next = if high < hi { Some(high + 1) } else { None };
        Scanned { filled, next }
    }
}

/// States what a report tells of each key, whatever the fronts are.
pub fn reports_tell()
    ensures { ReportLaw }
{}
