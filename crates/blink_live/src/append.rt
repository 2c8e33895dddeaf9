//! How a change of a leaf is appended to the leaf's row: the words of a record are stored behind those that readers know, and then the
//! page word counts one record more.
ghost use Rattle.std.specs.Prelude.{◌≡◌, ℕ, ◌+◌, ◌*◌, ◌<◌, ◌≤◌, Some, List, length, ◌++◌};
ghost use Rattle.atomic_table.specs.declared.Seat.{Seat};
ghost use Rattle.blink_batch.specs.{FitsWords, key_of};
ghost use Rattle.blink_rows.specs.{records_in};
ghost use Rattle.blink_rows.specs.declared.limits.TheConstants.{HEAD_WORDS, MAX_RECORDS, ROW_WORDS};
ghost use Rattle.blink_machine.specs.{NeedsWrite, PlainMachine, page_out};
ghost use Rattle.blink_live.specs.declared.view.Appending.{Appending};
ghost use Rattle.blink_live.specs.declared.view.View.{View};
ghost use Rattle.blink_live.specs.Additions.{CountsAdded, IsNextWord};
ghost use Rattle.blink_live.specs.AtomicSteps.{AppendsRecord};
ghost use Rattle.blink_live.specs.Seats.{HasSameNumber, IsPassSeat};
ghost use Rattle.blink_live.specs.Straight.{IsToChange, leaving};
ghost use Rattle.blink_live.specs.Updating.{IsUnderWay};
ghost use Rattle.blink_live.specs.Views.{MayChange, adds_one};
ghost use Rattle.blink_live.specs.Words.{IsRowNumber};

use crate::descent::{Descent, Spot};
use crate::live::Live;
use crate::room::Room;
use crate::rule::{AddWord, AppendRecord};
use crate::view::View;
use atomic_table::Seat;
use blink_batch::Op;
use blink_rows::layout::ENTRY_WORDS;
use blink_rows::{HEAD_WORDS, Record, page_word, records_in, row_in};

impl Live {
    // Appends the record to the leaf's row, and counts it in the leaf's page word. The leaf keeps its row.
    pub(crate) fn append_leaf(
        &self,
        seat: &mut Seat<u8, View>,
        _room: &Room,
        _op: Op,
        descent: &Descent,
        spot: &Spot,
        change: &Record,
    )
        requires changes { (first : Seat ℕ View)
            × IsToChange self.now _op descent.now first seat.old _room.now spot.now change.now }
        requires few { (records_in spot.now.word).count < MAX_RECORDS }
        requires inside { HEAD_WORDS + 2 * (spot.now.base + (records_in spot.now.word).count + 1)
            ≤ ROW_WORDS }
        ensures { (first : Seat ℕ View)
            → IsToChange self.now _op descent.now first seat.old _room.now spot.now change.now
            → IsUnderWay self.now _op first seat.new (leaving self.now.fan _op descent.now spot.now.kept)
            _room.now }
    {
        let row = row_in(spot.word);
        let records = records_in(spot.word);
        let at = HEAD_WORDS + ENTRY_WORDS * (spot.base + usize::from(records.count));
        self.add_word(seat, row, at, change.key);
        self.add_word(seat, row, at + 1, change.pointer);
        let word = page_word(row, records.with(change.kind));
        self.count_added(seat, descent.leaf, word);
    }

    // Stores a word of a row behind all that the seat knows of the row. No reader loads it, until the page word counts it.
    pub(crate) fn add_word(&self, seat: &mut Seat<u8, View>, row: u64, place: usize, word: u64)
        requires seat { IsPassSeat self.now seat.old.table_id seat.old.me }
        requires row { IsRowNumber self.now.counts row }
        requires next { IsNextWord row place seat.old.me }
        requires inside { place < ROW_WORDS }
        ensures same { HasSameNumber seat.old seat.new }
        ensures added { (a : Appending) → seat.old.me.0.appends ≡ Some a
            → seat.new.me ≡ (adds_one seat.old.me.0 a word, seat.old.me.1) }
    {
        // Called for the proof: a place in the table is a `usize`.
        let _count = self.table.word_count();
        let start = self.counts.row_start(row) as usize;
        self.table
            .shared
            .store::<AddWord>(seat, start + place, word);
    }

    // Stores the page word that counts what the seat has added to the page's row. From then on the row holds the page's version.
    pub(crate) fn count_added(&self, seat: &mut Seat<u8, View>, number: u32, word: u64)
        requires seat { IsPassSeat self.now seat.old.table_id seat.old.me }
        requires at { (m : PlainMachine) × (seat.old.me.0.operation ≡ Some m) × FitsWords m.op
            × NeedsWrite m number × MayChange seat.old.me.0 (key_of m.op)
            × CountsAdded number word seat.old.me (page_out m 0) }
        requires in_range { (1 ≤ number) × (number < self.now.counts.numbers) }
        ensures same { HasSameNumber seat.old seat.new }
        ensures counted { (m : PlainMachine) → seat.old.me.0.operation ≡ Some m → NeedsWrite m number
            → AppendsRecord number m seat.old.me seat.new.me }
    {
        self.table
            .shared
            .store::<AppendRecord>(seat, number as usize, word);
    }
}
