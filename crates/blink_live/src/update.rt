//! How an operation changes the tree after its descent. To change a page it latches the page and stores the page's next version
//! word by word in a row of its own. Then it names that row in the page word, and releases the latch. A page that has no room is
//! split by two such writes under one latch: `put_new` writes the upper half as a new page, and then `put_page` the lower half in
//! the old page's place.
ghost use Rattle.std.specs.Prelude.{◌≡◌, ◌≢◌, ℕ, ◌+◌, None, ◌<◌, ◌≤◌, Some, suc, List, IsTrue, IfSome, ◌↔◌, ◌-◌, Contains, IfNone, length};
ghost use Rattle.std.specs.Bool.{OnFalse};
ghost use Rattle.atomic_table.specs.declared.Seat.{Seat};
ghost use Rattle.blink_batch.specs.{FitsWords, key_of};
ghost use Rattle.blink_batch.specs.declared.Op.{Op};
ghost use Rattle.blink_page.specs.{IsPageNumber};
ghost use Rattle.blink_rows.specs.{page_words, prime_words};
ghost use Rattle.blink_rows.specs.declared.limits.TheConstants.{ROW_WORDS};
ghost use Rattle.blink_machine.specs.declared.machine.State.TheVariants.{Ended};
ghost use Rattle.blink_machine.specs.{IsUpdate, PlainMachine, fresh, done, PrimeOut, page_out, NeedsNew, NeedsPrimeWrite, NeedsWrite, NeedsLatch, NeedsUnlatch, latch, latch_of, unlatch};
ghost use Rattle.blink_live.specs.declared.descent.Changed.{Changed};
ghost use Rattle.blink_live.specs.declared.view.View.{View};
ghost use Rattle.blink_live.specs.Seats.{HasSameNumber, IsPassSeat, IsFirst};
ghost use Rattle.blink_live.specs.Shelves.{IsShelved};
ghost use Rattle.blink_live.specs.Straight.{HasCome};
ghost use Rattle.blink_live.specs.Updating.{CanWrite, HasEnded, HasRowsFor, IsUnderWay, room_in, ComesNearer, IsPastDescent};
ghost use Rattle.blink_live.specs.Views.{CanBegin, MayChange, is_staged, knows_word, latch_number_by, no_words, stage_word};
ghost use Rattle.blink_live.specs.Pendings.{IsWaiting};
ghost use Rattle.blink_live.specs.AtomicSteps.{PublishesNew, PublishesPage, PublishesPrime, GoesOn};
ghost use Rattle.blink_live.specs.Spares.{HasAny, HasSpareOf, WritesNew};
ghost use Rattle.blink_live.specs.Words.{AreNumbersIn, BeginWith, IsRowNumber};

use crate::descent::Changed;
use crate::live::Live;
use crate::room::Room;
use crate::rule::{KnowWord, LetGo, Publish, PublishNew, PublishPrime, StoreWord, TryLatch};
use crate::shelf::has_spare;
use crate::view::View;
use atomic_table::Seat;
use blink_batch::{Answer, Op};
use blink_machine::{Machine, Need, Resting, State};
use blink_rows::layout::ENTRY_WORDS;
use blink_rows::{HEAD_WORDS, ROW_WORDS, page_row, prime_row, row_in};
use std::sync::Wait;
use std::{hint, thread};

// How often a call that may wait tries a latch at once that another seat has, before it gives its processor up.
const SPINS: u32 = 8;

// The number of words in a cache line of the processor, at 64 bytes a line.
const LINE_WORDS: usize = 8;

// The number of lines that a row takes up, where it begins with one.
const ROW_LINES: usize = (ROW_WORDS + LINE_WORDS - 1) / LINE_WORDS;

impl Live {
    // Changes the tree by an operation of a key that the seat may change, with the rows and page numbers of `room`. The call retries a
    // latch that another seat has, and a level to post to that isn't there yet.
    pub(crate) fn update<R: Wait>(
        &self,
        rt: &R,
        seat: &mut Seat<u8, View>,
        mut room: Room,
        op: Op,
    ) -> Answer
        requires seat { IsPassSeat self.now seat.old.table_id seat.old.me }
        requires idle { seat.old.me.0.operation ≡ None }
        requires fits { FitsWords op }
        requires updates { IsUpdate op }
        requires can_begin { CanBegin seat.old.me.0 op }
        requires room { room ≡ room_in op seat.old.me.0 room.shelf }
        requires shelved { IsShelved room.shelf seat.old.me.0 }
        requires enough { HasRowsFor op seat.old.me.0.rows room.shelf }
        requires may { MayChange seat.old.me.0 (key_of op) }
        ensures ended { HasEnded op seat.old seat.new result }
    {
        match self.change_by(seat, &mut room, op, SPINS) {
            Changed::Ended(answer) => answer,
            Changed::Rests(resting) => self.wait_on(rt, seat, &mut room, &resting),
        }
    }

    // Takes the steps of an operation that rests, until it has ended.
    #[cold]
    #[inline(never)]
    fn wait_on<R: Wait>(
        &self,
        rt: &R,
        seat: &mut Seat<u8, View>,
        room: &mut Room,
        resting: &Resting,
    ) -> Answer
        requires under_way { (op : Op) × (first : Seat ℕ View)
            × IsUnderWay self.now op first seat.old resting.now room.old }
        requires waits { IsWaiting resting.now }
        ensures ended { (op : Op) (first : Seat ℕ View)
            → IsUnderWay self.now op first seat.old resting.now room.old
            → HasCome self.now op first seat.new room.new (Changed.Ended result) }
    {
        let mut rested = self.resume(seat, room, resting, 1);
        for _ in rt.forever() {
            let resting = match rested {
                Changed::Ended(answer) => return answer,
                Changed::Rests(resting) => resting,
            };
            thread::yield_now();
            rested = self.resume(seat, room, &resting, 1);
        }
        unreachable!()
    }

    // Loads a word of each of the row's cache lines, so that the lines come together, and while the call does something else: a store waits for
    // its line, and no other store overtakes it.
    pub(crate) fn fetch_row(&self, row: u64) {
        if row == 0 || row > self.counts.rows {
            return;
        }
        let start = self.row_place(row);
        for line in 0..ROW_LINES {
            self.table.shared.peek(start + LINE_WORDS * line);
        }
    }

    // Takes steps of the operation until it has ended, and returns its answer; or `None` after so many steps in vain, at least
    // one. It waits for nobody, and never stops while the operation holds a latch.
    pub(crate) fn take_steps(
        &self,
        seat: &mut Seat<u8, View>,
        machine: &mut Machine,
        room: &mut Room,
        tries: u32,
    ) -> Option<Answer>
        requires under_way { (op : Op) × (first : Seat ℕ View)
            × IsUnderWay self.now op first seat.old machine.old room.old }
        requires waits { IsWaiting machine.old }
        ensures under_way { (op : Op) (first : Seat ℕ View)
            → IsUnderWay self.now op first seat.old machine.old room.old
            → IsUnderWay self.now op first seat.new machine.new room.new }
        ensures ended { IfSome result
            (λ answer. (machine.new.state ≡ Ended) × (machine.new.answer ≡ Some answer)) }
        ensures waits { IfNone result (IsWaiting machine.new) }
    {
        let mut left = tries;
        // The range ends for the proof alone, which knows no bound of an operation's steps.
        for _ in 0..u64::MAX {
            if !self.turn(seat, machine, room) {
                left = left.saturating_sub(1);
                if left == 0 {
                    return None;
                }
                hint::spin_loop();
                continue;
            }
            self.leave(seat, machine, room);
            if machine.ended() {
                return machine.answer();
            }
        }
        None
    }

    // Takes the operation's steps for as long as it holds a latch. None of these waits.
    pub(crate) fn leave(&self, seat: &mut Seat<u8, View>, machine: &mut Machine, room: &mut Room)
        requires under_way { (op : Op) × (first : Seat ℕ View)
            × IsUnderWay self.now op first seat.old machine.old room.old }
        ensures under_way { (op : Op) (first : Seat ℕ View)
            → IsUnderWay self.now op first seat.old machine.old room.old
            → IsUnderWay self.now op first seat.new machine.new room.new }
        ensures no_latch { latch_of machine.new ≡ None }
    {
        while holds_latch(machine) {
            self.turn(seat, machine, room);
        }
    }

    // Takes the operation's next step, and returns whether the operation moved. It waits if another seat has the latch that it
    // wants, or if the level that it posts to isn't there yet.
    fn turn(&self, seat: &mut Seat<u8, View>, machine: &mut Machine, room: &mut Room) -> bool
        requires under_way { (op : Op) × (first : Seat ℕ View)
            × IsUnderWay self.now op first seat.old machine.old room.old }
        requires goes_on { machine.old.state ≢ Ended }
        ensures under_way { (op : Op) (first : Seat ℕ View)
            → IsUnderWay self.now op first seat.old machine.old room.old
            → IsUnderWay self.now op first seat.new machine.new room.new }
        ensures waits { OnFalse result (machine.new ≡ machine.old) }
        ensures nearer { ComesNearer machine.old machine.new }
    {
        match machine.need() {
            Need::ReadPrime => self.read_prime(seat, machine),
            Need::ReadPage(number) => {
                self.read_latched(seat, machine, number);
                true
            }
            Need::Latch(number) => self.try_latch(seat, machine, number, room.latch_number),
            Need::WriteNew => {
                self.put_new(seat, machine, room);
                true
            }
            Need::WritePage(number) => {
                self.put_page(seat, machine, room, number);
                true
            }
            Need::WritePrime => {
                self.put_prime(seat, machine, room);
                true
            }
            Need::Unlatch(number) => {
                self.let_go(seat, machine, number);
                true
            }
            Need::End => unreachable!(),
        }
    }

    // Writes the next version of a page, and puts the row of the version before on the shelf. The version stands in a free row of the
    // shelf, or else in the first row of the room.
    fn put_page(
        &self,
        seat: &mut Seat<u8, View>,
        machine: &mut Machine,
        room: &mut Room,
        number: u32,
    )
        requires under_way { (op : Op) × (first : Seat ℕ View)
            × IsUnderWay self.now op first seat.old machine.old room.old }
        requires goes_on { machine.old.state ≢ Ended }
        requires needs { NeedsWrite machine.old number }
        ensures under_way { (op : Op) (first : Seat ℕ View)
            → IsUnderWay self.now op first seat.old machine.old room.old
            → IsUnderWay self.now op first seat.new machine.new room.new }
        ensures machine { machine.new ≡ done machine.old 0 }
    {
        // Read for the proof: the room's numbers are words.
        let _stop = room.rows.stop;
        if let Some(row) = self.lend(seat, room) {
            let out = self.write_page(seat, machine, number, row);
            self.put_rows_back(seat);
            Self::keep_out(seat, room, out);
            return;
        }
        let out = self.write_page(seat, machine, number, room.rows.next);
        room.rows.next += 1;
        Self::keep_out(seat, room, out);
    }

    // Writes the prime block with the operation's new root, in the same way.
    fn put_prime(&self, seat: &mut Seat<u8, View>, machine: &mut Machine, room: &mut Room)
        requires under_way { (op : Op) × (first : Seat ℕ View)
            × IsUnderWay self.now op first seat.old machine.old room.old }
        requires goes_on { machine.old.state ≢ Ended }
        requires needs { NeedsPrimeWrite machine.old }
        ensures under_way { (op : Op) (first : Seat ℕ View)
            → IsUnderWay self.now op first seat.old machine.old room.old
            → IsUnderWay self.now op first seat.new machine.new room.new }
        ensures machine { machine.new ≡ done machine.old 0 }
    {
        // Read for the proof: the room's numbers are words.
        let _stop = room.rows.stop;
        if let Some(row) = self.lend(seat, room) {
            let out = self.write_prime(seat, machine, row);
            self.put_rows_back(seat);
            Self::keep_out(seat, room, out);
            return;
        }
        let out = self.write_prime(seat, machine, room.rows.next);
        room.rows.next += 1;
        Self::keep_out(seat, room, out);
    }

    // Writes the operation's new page, in the same way. Its number is the first of the shelf's spare ones, or else of the room's.
    fn put_new(&self, seat: &mut Seat<u8, View>, machine: &mut Machine, room: &mut Room)
        requires under_way { (op : Op) × (first : Seat ℕ View)
            × IsUnderWay self.now op first seat.old machine.old room.old }
        requires goes_on { machine.old.state ≢ Ended }
        requires needs { NeedsNew machine.old }
        ensures under_way { (op : Op) (first : Seat ℕ View)
            → IsUnderWay self.now op first seat.old machine.old room.old
            → IsUnderWay self.now op first seat.new machine.new room.new }
        ensures machine { (number : ℕ) × (machine.new ≡ done machine.old number) }
    {
        // Read for the proof: the room's numbers are words.
        let _stop = room.rows.stop;
        if let Some(row) = self.lend(seat, room) {
            self.write_new(seat, machine, room, row);
            self.put_rows_back(seat);
            return;
        }
        let row = room.rows.next;
        self.write_new(seat, machine, room, row);
        room.rows.next += 1;
    }

    // Replaces the page of this number by the operation's version, and returns the row of the version before. The new version
    // stands in the first row of the call, which the page word names from then on.
    fn write_page(
        &self,
        seat: &mut Seat<u8, View>,
        machine: &mut Machine,
        number: u32,
        row: u64,
    ) -> u64
        requires can { CanWrite self.now machine.old row seat.old }
        requires needs { NeedsWrite machine.old number }
        requires in_range { (1 ≤ number) × (number < self.now.counts.numbers) }
        ensures same { HasSameNumber seat.old seat.new }
        ensures machine { machine.new ≡ done machine.old 0 }
        ensures published { PublishesPage number result machine.old seat.old.me seat.new.me }
    {
        let page = machine.page_in_place(number);
        let words = page_row(page);
        let count = HEAD_WORDS + ENTRY_WORDS * page.items.len();
        self.stage_row(seat, row, &words[..count]);
        self.publish(seat, machine, number, row)
    }

    // Writes the operation's new page in the call's first row, at the first spare number, or else at the first of the room's.
    fn write_new(&self, seat: &mut Seat<u8, View>, machine: &mut Machine, room: &mut Room, row: u64)
        requires can { CanWrite self.now machine.old row seat.old }
        requires needs { NeedsNew machine.old }
        requires pages { room.old.pages ≡ seat.old.me.0.call.pages }
        requires some { HasAny room.old.pages }
        requires in_range { AreNumbersIn self.now.counts room.old.pages }
        requires spare { HasSpareOf room.old.shelf seat.old.me.0 }
        ensures same { HasSameNumber seat.old seat.new }
        ensures written { (number : ℕ) × (machine.new ≡ done machine.old number)
            × WritesNew machine.old number seat.old.me seat.new.me room.old room.new }
    {
        if has_spare(&room.shelf) {
            self.exchange_spare(seat, room);
            self.write_numbered(seat, machine, room.pages.next as u32, row);
            room.pages.next += 1;
            self.exchange_spare(seat, room);
            return;
        }
        self.write_numbered(seat, machine, room.pages.next as u32, row);
        room.pages.next += 1;
    }

    // Writes the operation's new page at this number, the first of the call's page numbers. It stands in the call's first row.
    fn write_numbered(
        &self,
        seat: &mut Seat<u8, View>,
        machine: &mut Machine,
        number: u32,
        row: u64,
    )
        requires can { CanWrite self.now machine.old row seat.old }
        requires needs { NeedsNew machine.old }
        requires number { IsFirst number seat.old.me.0.call.pages }
        requires in_range { IsPageNumber number × (number < self.now.counts.numbers) }
        ensures same { HasSameNumber seat.old seat.new }
        ensures machine { machine.new ≡ done machine.old number }
        ensures published { PublishesNew machine.old seat.old.me seat.new.me }
    {
        let page = machine.page_out(number);
        let words = page_row(&page);
        let count = HEAD_WORDS + ENTRY_WORDS * page.items.len();
        self.stage_row(seat, row, &words[..count]);
        self.publish_new(seat, machine, number, row);
    }

    // Writes the prime block with the operation's new root, in the call's first row, and returns the row that it had before.
    fn write_prime(&self, seat: &mut Seat<u8, View>, machine: &mut Machine, row: u64) -> u64
        requires can { CanWrite self.now machine.old row seat.old }
        requires needs { NeedsPrimeWrite machine.old }
        ensures same { HasSameNumber seat.old seat.new }
        ensures machine { machine.new ≡ done machine.old 0 }
        ensures published { PublishesPrime result machine.old seat.old.me seat.new.me }
    {
        let prime = machine.prime_out();
        let words = prime_row(&prime);
        let count = HEAD_WORDS + prime.leftmost.len();
        self.stage_row(seat, row, &words[..count]);
        self.publish_prime(seat, machine, row)
    }

    // Makes the first words of an unpublished row these, in ascending order. It loads each word, and stores those that differ,
    // since the row may have been another page's before. What stands behind them stays.
    pub(crate) fn stage_row(&self, seat: &mut Seat<u8, View>, row: u64, words: &[u64])
        requires seat { IsPassSeat self.now seat.old.table_id seat.old.me }
        requires row { IsFirst row seat.old.me.0.call.rows × IsRowNumber self.now.counts row }
        requires blank { seat.old.me.0.call.staged ≡ no_words }
        requires fits { length words.now ≤ ROW_WORDS }
        ensures same { HasSameNumber seat.old seat.new }
        ensures staged { seat.new.me ≡ (is_staged seat.old.me.0 words.now, seat.old.me.1) }
    {
        for (place, &word) in words.iter().enumerate() {
            let found = self.load_own(seat, row, place);
            if found != word {
                self.store_word(seat, row, place, word);
            }
        }
    }

    // The place of the page's latch word.
    pub(crate) fn latch_place(&self, number: u32) -> usize
        requires in_range { number < self.now.counts.numbers }
        ensures { result ≡ self.now.counts.numbers + number }
    {
        // Called for the proof: a place in the table is a `usize`.
        let _count = self.table.word_count();
        self.counts.numbers as usize + number as usize
    }

    // Tries to latch the page, and returns whether the seat has the latch now. A pass's own number is that of the last of its rows,
    // and a session's is 1.
    fn try_latch(
        &self,
        seat: &mut Seat<u8, View>,
        machine: &mut Machine,
        number: u32,
        own: u64,
    ) -> bool
        requires seat { IsPassSeat self.now seat.old.table_id seat.old.me }
        requires at { seat.old.me.0.operation ≡ Some machine.old }
        requires fits { FitsWords machine.old.op }
        requires needs { NeedsLatch machine.old number }
        requires in_range { number < self.now.counts.numbers }
        requires own { (own ≡ latch_number_by seat.old.me.0) × (1 ≤ own) }
        ensures same { HasSameNumber seat.old seat.new }
        ensures moved { IsTrue result → machine.new ≡ done machine.old 0 }
        ensures got { IsTrue result → GoesOn (latch number) machine.old seat.old.me seat.new.me }
        ensures lost { ¬ IsTrue result → (machine.new ≡ machine.old) × (seat.new.me ≡ seat.old.me) }
    {
        if !self.take_latch(seat, number, own) {
            return false;
        }
        machine.done(0);
        true
    }

    // The step of `try_latch`, for any machine that the view's operation is.
    pub(crate) fn take_latch(&self, seat: &mut Seat<u8, View>, number: u32, own: u64) -> bool
        requires seat { IsPassSeat self.now seat.old.table_id seat.old.me }
        requires at { (m : PlainMachine) × (seat.old.me.0.operation ≡ Some m) × FitsWords m.op
            × NeedsLatch m number }
        requires in_range { number < self.now.counts.numbers }
        requires own { (own ≡ latch_number_by seat.old.me.0) × (1 ≤ own) }
        ensures same { HasSameNumber seat.old seat.new }
        ensures got { IsTrue result → (m : PlainMachine) → seat.old.me.0.operation ≡ Some m
            → NeedsLatch m number
            → GoesOn (latch number) m seat.old.me seat.new.me }
        ensures lost { ¬ IsTrue result → seat.new.me ≡ seat.old.me }
    {
        let word = self.latch_place(number);
        if self
            .table
            .shared
            .compare_exchange::<TryLatch>(seat, word, 0, own)
            != 0
        {
            return false;
        }
        true
    }

    // Releases the page's latch.
    fn let_go(&self, seat: &mut Seat<u8, View>, machine: &mut Machine, number: u32)
        requires seat { IsPassSeat self.now seat.old.table_id seat.old.me }
        requires at { seat.old.me.0.operation ≡ Some machine.old }
        requires fits { FitsWords machine.old.op }
        requires needs { NeedsUnlatch machine.old number }
        requires in_range { number < self.now.counts.numbers }
        ensures same { HasSameNumber seat.old seat.new }
        ensures machine { machine.new ≡ done machine.old 0 }
        ensures gone { GoesOn (unlatch number) machine.old seat.old.me seat.new.me }
    {
        self.free_latch(seat, number);
        machine.done(0);
    }

    // The step of `let_go`, for any machine that the view's operation is.
    pub(crate) fn free_latch(&self, seat: &mut Seat<u8, View>, number: u32)
        requires seat { IsPassSeat self.now seat.old.table_id seat.old.me }
        requires at { (m : PlainMachine) × (seat.old.me.0.operation ≡ Some m) × FitsWords m.op
            × NeedsUnlatch m number }
        requires in_range { number < self.now.counts.numbers }
        ensures same { HasSameNumber seat.old seat.new }
        ensures gone { (m : PlainMachine) → seat.old.me.0.operation ≡ Some m → NeedsUnlatch m number
            → GoesOn (unlatch number) m seat.old.me seat.new.me }
    {
        let word = self.latch_place(number);
        self.table.shared.store::<LetGo>(seat, word, 0);
    }

    // Loads a word of the row, which is the first that the seat's call may use. The call knows the words before it.
    pub(crate) fn load_own(&self, seat: &mut Seat<u8, View>, row: u64, place: usize) -> u64
        requires seat { IsPassSeat self.now seat.old.table_id seat.old.me }
        requires row { IsFirst row seat.old.me.0.call.rows × IsRowNumber self.now.counts row }
        requires place { (place < ROW_WORDS) × (1 ≤ self.now.counts.numbers) }
        requires next { place ≡ length seat.old.me.0.call.staged }
        ensures same { HasSameNumber seat.old seat.new }
        ensures known { seat.new.me ≡ (knows_word seat.old.me.0 result, seat.old.me.1) }
    {
        // Called for the proof: a place in the table is a `usize`.
        let _count = self.table.word_count();
        let start = self.counts.row_start(row) as usize;
        self.table.shared.load::<KnowWord>(seat, start + place)
    }

    // Stores a word of the row, which is the first that the seat's call may use.
    pub(crate) fn store_word(&self, seat: &mut Seat<u8, View>, row: u64, place: usize, word: u64)
        requires seat { IsPassSeat self.now seat.old.table_id seat.old.me }
        requires row { IsFirst row seat.old.me.0.call.rows × IsRowNumber self.now.counts row }
        requires place { (place < ROW_WORDS) × (1 ≤ self.now.counts.numbers) }
        ensures same { HasSameNumber seat.old seat.new }
        ensures stored { seat.new.me ≡ (stage_word seat.old.me.0 place word, seat.old.me.1) }
    {
        // Called for the proof: a place in the table is a `usize`.
        let _count = self.table.word_count();
        let start = self.counts.row_start(row) as usize;
        self.table
            .shared
            .store::<StoreWord>(seat, start + place, word);
    }

    // Names the row in the page word, and returns the row that it named before. From then on the row holds the page's version. A
    // row's number is the page word that names it and counts no record.
    fn publish(
        &self,
        seat: &mut Seat<u8, View>,
        machine: &mut Machine,
        number: u32,
        row: u64,
    ) -> u64
        requires seat { IsPassSeat self.now seat.old.table_id seat.old.me }
        requires at { seat.old.me.0.operation ≡ Some machine.old }
        requires fits { FitsWords machine.old.op }
        requires needs { NeedsWrite machine.old number }
        requires in_range { (1 ≤ number) × (number < self.now.counts.numbers) }
        requires row { IsFirst row seat.old.me.0.call.rows }
        requires staged { BeginWith seat.old.me.0.call.staged (page_words (page_out machine.old 0)) }
        requires may { MayChange seat.old.me.0 (key_of machine.old.op) }
        ensures same { HasSameNumber seat.old seat.new }
        ensures machine { machine.new ≡ done machine.old 0 }
        ensures published { PublishesPage number result machine.old seat.old.me seat.new.me }
    {
        let out = self.name_row(seat, number, row);
        machine.done(0);
        out
    }

    // The step of `publish`, for any machine that the view's operation is.
    pub(crate) fn name_row(&self, seat: &mut Seat<u8, View>, number: u32, row: u64) -> u64
        requires seat { IsPassSeat self.now seat.old.table_id seat.old.me }
        requires at { (m : PlainMachine) × (seat.old.me.0.operation ≡ Some m) × FitsWords m.op
            × NeedsWrite m number × MayChange seat.old.me.0 (key_of m.op)
            × BeginWith seat.old.me.0.call.staged (page_words (page_out m 0)) }
        requires in_range { (1 ≤ number) × (number < self.now.counts.numbers) }
        requires row { IsFirst row seat.old.me.0.call.rows }
        ensures same { HasSameNumber seat.old seat.new }
        ensures published { (m : PlainMachine) → seat.old.me.0.operation ≡ Some m → NeedsWrite m number
            → PublishesPage number result m seat.old.me seat.new.me }
    {
        let before = self
            .table
            .shared
            .swap::<Publish>(seat, number as usize, row);
        row_in(before)
    }

    // Names the row in the page word of a new page. The page's number is the first that the seat's call may use.
    fn publish_new(&self, seat: &mut Seat<u8, View>, machine: &mut Machine, number: u32, row: u64)
        requires seat { IsPassSeat self.now seat.old.table_id seat.old.me }
        requires at { seat.old.me.0.operation ≡ Some machine.old }
        requires fits { FitsWords machine.old.op }
        requires needs { NeedsNew machine.old }
        requires number { IsFirst number seat.old.me.0.call.pages }
        requires in_range { IsPageNumber number × (number < self.now.counts.numbers) }
        requires row { IsFirst row seat.old.me.0.call.rows }
        requires staged { BeginWith seat.old.me.0.call.staged (page_words (page_out machine.old number)) }
        requires may { MayChange seat.old.me.0 (key_of machine.old.op) }
        ensures same { HasSameNumber seat.old seat.new }
        ensures machine { machine.new ≡ done machine.old number }
        ensures published { PublishesNew machine.old seat.old.me seat.new.me }
    {
        self.table
            .shared
            .store::<PublishNew>(seat, number as usize, row);
        machine.done(number);
    }

    // Names the row in the prime block's page word, and returns the row that it named before.
    fn publish_prime(&self, seat: &mut Seat<u8, View>, machine: &mut Machine, row: u64) -> u64
        requires seat { IsPassSeat self.now seat.old.table_id seat.old.me }
        requires at { seat.old.me.0.operation ≡ Some machine.old }
        requires fits { FitsWords machine.old.op }
        requires needs { NeedsPrimeWrite machine.old }
        requires row { IsFirst row seat.old.me.0.call.rows }
        requires staged { (prime : List ℕ) × PrimeOut machine.old prime
            × BeginWith seat.old.me.0.call.staged (prime_words prime) }
        requires may { MayChange seat.old.me.0 (key_of machine.old.op) }
        ensures same { HasSameNumber seat.old seat.new }
        ensures machine { machine.new ≡ done machine.old 0 }
        ensures published { PublishesPrime result machine.old seat.old.me seat.new.me }
    {
        let before = self.table.shared.swap::<PublishPrime>(seat, 0, row);
        machine.done(0);
        row_in(before)
    }
}

// Whether the operation holds a page's latch.
fn holds_latch(machine: &Machine) -> bool
    requires past_descent { IsPastDescent machine.now.state }
    ensures { IsTrue result ↔ latch_of machine.now ≢ None }
{
    !matches!(
        machine.state(),
        State::Want(_) | State::Posting | State::Ended
    )
}
