//! Snapshots: the entries of a range of keys as all of them were at one time, while other passes change the tree.
//!
//! A snapshot looks twice. First it goes from leaf to leaf as a scan does, and notes each leaf's page word. Then it marks a tree
//! state by one load. After that it loads each of the page words once more, and copies the entries of the row that it names. Page
//! words name a row once: whoever changes a page writes it into another row. So a page word that is the same twice has been so all
//! the time between, also in the marked state, and the row that it names had the page's entries then. If each leaf's does, the
//! entries are those of the marked state. If one doesn't, that leaf was changed meanwhile, and the snapshot tries again.
ghost use Rattle.std.specs.Prelude.{◌≡◌, ◌≢◌, ◌<◌, ◌≤◌, Some, IfOk, IfSome, IsTrue, Contains};
ghost use Rattle.blink_page.specs.{IsKeyOf, PlainPage};
ghost use Rattle.blink_rows.specs.{row_in};
ghost use Rattle.blink_live.specs.Finding.{HasSearched, IsIdle};
ghost use Rattle.blink_live.specs.Handles.{IsPassOf, IsSameBesideSeen, KnowsItsKeys, opening_of, seen_of};
ghost use Rattle.blink_live.specs.Seats.{HasSameNumber, IsAtPage, IsPassSeat, ReadsLeaf, ReadsPage};
ghost use Rattle.blink_live.specs.Snapshots.{AreNotedIn, IsNotedIn, IsSameBesideLook, IsSameBesideRow, IsSnapshot, LooksAgain, MarksState, NotesMore};
ghost use Rattle.blink_live.specs.Words.{IsRowNumber};

use crate::live::{Live, Pass};
use crate::rule::{LookAgain, MarkState, NoteLeaf};
use crate::view::View;
use atomic_table::Seat;
use blink_batch::{Entry, Op};
use blink_page::{MAX_FAN, Way};
use blink_rows::layout::{FLOOR, HAS_FLOOR, HIGH_KEY};
use blink_rows::row_in;
use std::alloc::{AllocError, Global};

/// A leaf that a seat has noted for a snapshot.
#[derive(Clone, Copy)]
pub struct NotedLeaf {
    pub number: u32,
    /// The leaf's page word, as it was loaded.
    pub word: u64,
}

impl Live {
    /// Returns the entries whose keys are from `lo` to `hi`, both included, in ascending order, as all of them were at one time in
    /// the call: they are what the changes that the pass has seen afterwards leave of each of these keys. `None` if that failed
    /// `tries` times, as some leaf of the range was changed each time while the call read the range. So it suits ranges of few
    /// leaves, or of few changes; where it returns `None`, [`scan`](Live::scan) reports the range leaf by leaf.
    ///
    /// The keys may be anybody's. A range is empty if `lo > hi`. The call waits for nobody, and returns. It takes memory for the
    /// entries, and while it runs 16 bytes for each leaf. If it is refused memory, nothing is changed, though the pass may have
    /// seen more.
    pub fn snapshot(
        &self,
        alloc: Global,
        pass: &mut Pass,
        lo: u64,
        hi: u64,
        tries: u32,
    ) -> Result<Option<Vec<Entry>>, AllocError>
        requires its_own { IsPassOf self.now pass.old }
        ensures snapshot { IfOk result (λ found. IfSome found (λ entries.
            IsSnapshot (opening_of self.now) (seen_of pass.new) lo hi entries.items)) }
        ensures knows { KnowsItsKeys self.now pass.new }
        ensures same { IsSameBesideSeen pass.old pass.new }
    {
        let Pass {
            seat,
            keys: _,
            rows: _,
            pages: _,
        } = pass;
        self.look_up(seat);
        self.snapshot_by(alloc, seat, lo, hi, tries)
    }

    /// Takes a snapshot by a seat that has no operation under way.
    pub fn snapshot_by(
        &self,
        alloc: Global,
        seat: &mut Seat<u8, View>,
        lo: u64,
        hi: u64,
        tries: u32,
    ) -> Result<Option<Vec<Entry>>, AllocError>
        requires seat { IsPassSeat self.now seat.old.table_id seat.old.me }
        requires idle { IsIdle seat.old.me.0 }
        ensures same_table { HasSameNumber seat.old seat.new }
        ensures searched { HasSearched seat.old.me seat.new.me }
        ensures snapshot { IfOk result (λ found. IfSome found (λ entries.
            IsSnapshot seat.new.me.0.plan.opening seat.new.me.0.seen lo hi entries.items)) }
    {
        for _ in 0..tries {
            let found = self.try_snapshot(alloc, seat, lo, hi)?;
            if found.is_some() {
                return Ok(found);
            }
        }
        Ok(None)
    }

    // Tries once.
    fn try_snapshot(
        &self,
        alloc: Global,
        seat: &mut Seat<u8, View>,
        lo: u64,
        hi: u64,
    ) -> Result<Option<Vec<Entry>>, AllocError>
        requires seat { IsPassSeat self.now seat.old.table_id seat.old.me }
        requires idle { IsIdle seat.old.me.0 }
        ensures same_table { HasSameNumber seat.old seat.new }
        ensures searched { HasSearched seat.old.me seat.new.me }
        ensures snapshot { IfOk result (λ found. IfSome found (λ entries.
            IsSnapshot seat.new.me.0.plan.opening seat.new.me.0.seen lo hi entries.items)) }
    {
        if lo > hi {
            return Ok(Some(Vec::new(alloc)));
        }
        let leaves = self.note_leaves(alloc, seat, lo, hi)?;
        self.mark_state(seat);
        self.read_leaves(alloc, seat, &leaves, lo, hi)
    }

    // Notes each leaf that has a key from `lo` to `hi`, from the left.
    fn note_leaves(
        &self,
        alloc: Global,
        seat: &mut Seat<u8, View>,
        lo: u64,
        hi: u64,
    ) -> Result<Vec<NotedLeaf>, AllocError>
        requires seat { IsPassSeat self.now seat.old.table_id seat.old.me }
        requires idle { IsIdle seat.old.me.0 }
        requires range { lo ≤ hi }
        ensures same_table { HasSameNumber seat.old seat.new }
        ensures searched { HasSearched seat.old.me seat.new.me }
        ensures noted { IfOk result (λ leaves.
            AreNotedIn self.now.counts seat.new.me.0.look leaves.items) }
    {
        let mut leaves = Vec::new(alloc);
        let mut from = lo;
        loop {
            let (leaf, high) = self.note_leaf(seat, from);
            leaves.push(leaf)?;
            if high >= hi {
                return Ok(leaves);
            }
            from = high + 1;
        }
    }

    // Notes the leaf of the key, and returns its high key with it.
    fn note_leaf(&self, seat: &mut Seat<u8, View>, key: u64) -> (NotedLeaf, u64)
        requires seat { IsPassSeat self.now seat.old.table_id seat.old.me }
        requires idle { IsIdle seat.old.me.0 }
        ensures same_table { HasSameNumber seat.old seat.new }
        ensures searched { HasSearched seat.old.me seat.new.me }
        ensures noted { IsNotedIn self.now.counts seat.new.me.0.look result.0 }
        ensures more { NotesMore seat.old.me.0.look seat.new.me.0.look }
        ensures high { key ≤ result.1 }
    {
        let (leaf, word) = self.come_to_noted(seat, key);
        let start = self.row_place(row_in(word));
        let high = self.load_word(seat, start, HIGH_KEY);
        (leaf, high)
    }

    // Brings a find to the leaf of its key, which the seat still reads afterwards, and notes it there. It returns the leaf as it was
    // noted, and the page word whose row the seat reads.
    pub(crate) fn come_to_noted(&self, seat: &mut Seat<u8, View>, key: u64) -> (NotedLeaf, u64)
        requires seat { IsPassSeat self.now seat.old.table_id seat.old.me }
        requires idle { IsIdle seat.old.me.0 }
        ensures same_table { HasSameNumber seat.old seat.new }
        ensures searched { HasSearched seat.old.me seat.new.me }
        ensures noted { IsNotedIn self.now.counts seat.new.me.0.look result.0 }
        ensures more { NotesMore seat.old.me.0.look seat.new.me.0.look }
        ensures row { IsRowNumber self.now.counts (row_in result.1) }
        ensures leaf { ReadsLeaf key result.1 seat.new.me }
    {
        let (mut number, mut level) = self.root(seat, Op::Find(key));
        loop {
            let noted = self.note_word(seat, key, number, level);
            match self.read_page(seat, key, number, level, 0) {
                (Way::Right(next), ..) => number = next,
                (Way::Down(child), ..) => {
                    number = child;
                    level -= 1;
                }
                (Way::Here, _, word) => {
                    return (
                        NotedLeaf {
                            number,
                            word: noted,
                        },
                        word,
                    );
                }
            }
        }
    }

    // Notes the page word that the seat's operation needs next, if it is a leaf's, and returns it.
    fn note_word(&self, seat: &mut Seat<u8, View>, key: u64, number: u32, level: u8) -> u64
        requires seat { IsPassSeat self.now seat.old.table_id seat.old.me }
        requires at { IsAtPage seat.old.me key number level }
        requires in_range { (1 ≤ number) × (number < self.now.counts.numbers) }
        ensures same_table { HasSameNumber seat.old seat.new }
        ensures same { IsSameBesideLook seat.old.me seat.new.me }
        ensures noted { result ≢ 0 → Contains seat.new.me.0.look.leaves (number, result) }
        ensures more { NotesMore seat.old.me.0.look seat.new.me.0.look }
    {
        if level > 0 {
            return 0;
        }
        self.table.shared.load::<NoteLeaf>(seat, number as usize)
    }

    // Marks the tree state of the load: the seat sees all changes up to it.
    fn mark_state(&self, seat: &mut Seat<u8, View>)
        requires seat { IsPassSeat self.now seat.old.table_id seat.old.me }
        ensures same_table { HasSameNumber seat.old seat.new }
        ensures marks { MarksState seat.old.me seat.new.me }
    {
        self.table.shared.load::<MarkState>(seat, 0);
    }

    // Reads the entries from `lo` to `hi` of the leaves that were noted before the tree state was marked. `None` if a leaf isn't as
    // it was then.
    fn read_leaves(
        &self,
        alloc: Global,
        seat: &mut Seat<u8, View>,
        leaves: &[NotedLeaf],
        lo: u64,
        hi: u64,
    ) -> Result<Option<Vec<Entry>>, AllocError>
        requires seat { IsPassSeat self.now seat.old.table_id seat.old.me }
        requires idle { IsIdle seat.old.me.0 }
        requires marked { seat.old.me.0.look.marked ≡ Some seat.old.me.0.seen }
        requires noted { AreNotedIn self.now.counts seat.old.me.0.look leaves.now }
        requires range { lo ≤ hi }
        ensures same_table { HasSameNumber seat.old seat.new }
        ensures same { IsSameBesideRow seat.old.me seat.new.me }
        ensures snapshot { IfOk result (λ found. IfSome found (λ entries.
            IsSnapshot seat.old.me.0.plan.opening seat.old.me.0.seen lo hi entries.items)) }
    {
        let mut entries = Vec::new(alloc);
        let mut from = lo;
        for leaf in leaves {
            if !self.read_again(seat, *leaf, from) {
                return Ok(None);
            }
            let mut copy = [Entry { key: 0, pointer: 0 }; MAX_FAN];
            let run = self.copy_leaf(seat, leaf.word, from, hi, &mut copy);
            entries.extend_from_slice(&copy[..run.filled])?;
            match run.next {
                Some(next) => from = next,
                None => return Ok(Some(entries)),
            }
        }
        Ok(None)
    }

    // Loads the leaf's page word once more. Returns whether it is still the one that the seat has noted, and the leaf has the key.
    fn read_again(&self, seat: &mut Seat<u8, View>, leaf: NotedLeaf, key: u64) -> bool
        requires seat { IsPassSeat self.now seat.old.table_id seat.old.me }
        requires idle { IsIdle seat.old.me.0 }
        requires marked { seat.old.me.0.look.marked ≡ Some seat.old.me.0.seen }
        requires noted { IsNotedIn self.now.counts seat.old.me.0.look leaf }
        ensures same_table { HasSameNumber seat.old seat.new }
        ensures same { IsSameBesideRow seat.old.me seat.new.me }
        ensures row { IsTrue result → IsRowNumber self.now.counts (row_in leaf.word) }
        ensures leaf { IsTrue result → ReadsLeaf key leaf.word seat.new.me }
    {
        let word = self.look_again(seat, leaf.number);
        word != 0 && word == leaf.word && self.has_key(seat, row_in(word), key)
    }

    // Loads the page word of this number. The seat reads the page of the row that it names.
    fn look_again(&self, seat: &mut Seat<u8, View>, number: u32) -> u64
        requires seat { IsPassSeat self.now seat.old.table_id seat.old.me }
        requires idle { IsIdle seat.old.me.0 }
        requires in_range { (1 ≤ number) × (number < self.now.counts.numbers) }
        ensures same_table { HasSameNumber seat.old seat.new }
        ensures again { LooksAgain number seat.old.me result seat.new.me }
    {
        self.table.shared.load::<LookAgain>(seat, number as usize)
    }

    // Whether the key is one of those that belong to the page whose row the seat reads. The seat has noted no more of the leaf than
    // its row, so this is how the leaves of a snapshot are known to follow one another.
    pub(crate) fn has_key(&self, seat: &mut Seat<u8, View>, row: u64, key: u64) -> bool
        requires seat { IsPassSeat self.now seat.old.table_id seat.old.me }
        requires row { IsRowNumber self.now.counts row }
        ensures same_table { HasSameNumber seat.old seat.new }
        ensures same { seat.new.me ≡ seat.old.me }
        ensures has { IsTrue result
            → (page : PlainPage) → ReadsPage seat.old.me row page → IsKeyOf page key }
    {
        let start = self.row_place(row);
        let has_floor = self.load_word(seat, start, HAS_FLOOR);
        let floor = self.load_word(seat, start, FLOOR);
        let high = self.load_word(seat, start, HIGH_KEY);
        (has_floor == 0 || floor < key) && key <= high
    }
}
