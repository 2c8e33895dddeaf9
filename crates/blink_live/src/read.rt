//! The descent of an operation to the leaf of its key, and a seat's reads of pages. Each read of a page first loads its page
//! word. That load is the tree's read. Then the seat loads as many words of the row that the page word names as decide where the
//! operation's key leads. Not even the page's level is among them, since a child is one level below its parent. Of a page that
//! the operation has latched the seat loads the words up to the last entry. Of the prime block it loads the words up to the
//! leftmost page of the top level.
ghost use Rattle.std.specs.Prelude.{◌≡◌, None, ℕ, ◌+◌, ◌*◌, ◌<◌, ◌≤◌, Some, List, Option, slice_get, slice_index, ◌⊎◌, IfNone, IfSome, length};
ghost use Rattle.std.specs.Bool.{OnTrue, OnFalse};
ghost use Rattle.blink_batch.specs.{FitsWords, key_of};
ghost use Rattle.blink_page.specs.{place_of, value_at, PlainPage, IsRising, IsLawfulPage};
ghost use Rattle.blink_page.specs.declared.limits.TheConstants.{MAX_FAN};
ghost use Rattle.blink_rows.specs.declared.limits.TheConstants.{ROW_WORDS};
ghost use Rattle.blink_rows.specs.{IsPrimeRow, page_words, row_in};
ghost use Rattle.blink_machine.specs.{PlainMachine, fresh, NeedsPage, NeedsPrime, SeesPrime};
ghost use Rattle.blink_live.specs.Seats.{BeginsAt, HasRead, HasSameNumber, IsAtLeaf, IsAtPage, IsPassSeat, IsSaid, IsSameSeat, ReadsPage, ReadsVersion, ReadsWay, TellsWayFor, ReadsPrime};
ghost use Rattle.blink_live.specs.Views.{CanBegin, IsAnnounced, for_call, known_of};
ghost use Rattle.blink_live.specs.Words.{AreNumbersIn, AreRowsIn, IsRowNumber, IsSameOutside, row_start, word_count};
ghost use Rattle.blink_live.specs.AtomicSteps.{Begins, LoadsPage, LoadsPrime};

use crate::live::Live;
use crate::rule::{Begin, Begun, LoadPage, LoadPrime, LoadWord};
use crate::view::View;
use arrayvec::ArrayVec;
use atomic_table::Seat;
use blink_batch::Op;
use blink_machine::{Machine, State};
use blink_page::{Page, Way};
use blink_rows::layout::{COUNT, ENTRY_WORDS, FLOOR, HAS_FLOOR, HIGH_KEY, LEVEL, RIGHT_LINK};
use blink_rows::{HEAD_WORDS, ROW_WORDS, Record, records_in, row_in, row_prime};
use std::marker::Brand;

/// The number of entries in a line of the processor's cache.
pub(crate) const LINE: usize = 4;

impl Live {
    // Begins an operation, and returns the root's number and level.
    pub(crate) fn root(&self, seat: &mut Seat<u8, View>, op: Op) -> (u32, u8)
        requires seat { IsPassSeat self.now seat.old.table_id seat.old.me }
        requires idle { seat.old.me.0.operation ≡ None }
        requires fits { FitsWords op }
        requires can_begin { CanBegin seat.old.me.0 op }
        ensures same { HasSameNumber seat.old seat.new }
        ensures begun { BeginsAt op seat.old.me result.0 result.1 seat.new.me }
    {
        let row = self.load_prime::<Brand>(seat, op);
        let start = self.row_place(row);
        let levels = self.load_word(seat, start, COUNT);
        let root = self.load_word(seat, start, HEAD_WORDS + levels as usize - 1);
        (root as u32, levels as u8 - 1)
    }

    // Loads the prime block's page word for an operation that begins, and returns the row that it names.
    fn load_prime<B: Begun>(&self, seat: &mut Seat<u8, View>, op: Op) -> u64
        requires seat { IsPassSeat self.now seat.old.table_id seat.old.me }
        requires idle { seat.old.me.0.operation ≡ None }
        requires picked { B.op ≡ op }
        requires fits { FitsWords op }
        requires can_begin { CanBegin seat.old.me.0 op }
        ensures same { HasSameNumber seat.old seat.new }
        ensures begun { (machine : PlainMachine) × Begins op seat.old.me result machine seat.new.me }
    {
        row_in(self.table.shared.load::<Begin<B>>(seat, 0))
    }

    // Reads the page that a descending operation needs next, of this number and level. It returns where the key leads from there;
    // if the page is the key's leaf, the pointer stored for the key; and the page's word. `hint` is where the search in the page
    // may begin; any hint gives the same answer.
    pub(crate) fn read_page(
        &self,
        seat: &mut Seat<u8, View>,
        key: u64,
        number: u32,
        level: u8,
        hint: usize,
    ) -> (Way, Option<u64>, u64)
        requires seat { IsPassSeat self.now seat.old.table_id seat.old.me }
        requires at { IsAtPage seat.old.me key number level }
        requires in_range { (1 ≤ number) × (number < self.now.counts.numbers) }
        ensures same { HasSameNumber seat.old seat.new }
        ensures row { IsRowNumber self.now.counts (row_in result.2) }
        ensures way { (at : IsAtPage seat.old.me key number level)
            → ReadsWay at.machine key number result.2 seat.old.me result.0 result.1 seat.new.me }
    {
        let word = self.load_page(seat, number);
        let (way, kept) = self.way_in(seat, word, level, key, hint);
        (way, kept, word)
    }

    // Where the key leads from the version of a page of this level that the seat reads. If the page is the key's leaf, also the
    // pointer stored for the key.
    pub(crate) fn way_in(
        &self,
        seat: &mut Seat<u8, View>,
        word: u64,
        level: u8,
        key: u64,
        hint: usize,
    ) -> (Way, Option<u64>)
        requires seat { IsPassSeat self.now seat.old.table_id seat.old.me }
        requires row { IsRowNumber self.now.counts (row_in word) }
        requires page { (page : PlainPage) × ReadsVersion seat.old.me word page × (page.level ≡ level) }
        ensures same { IsSameSeat seat.old seat.new }
        ensures way { (page : PlainPage) → ReadsVersion seat.old.me word page → page.level ≡ level
            → TellsWayFor key page result.0 result.1 }
    {
        if let Some(said) = self.newest(seat, word, key) {
            return (Way::Here, said);
        }
        self.way_from(seat, row_in(word), level, key, hint)
    }

    // The pointer that the key has by the newest record of it, in the version that the seat reads; `Some(None)` if that record removed
    // the key, and `None` if no record is of the key.
    fn newest(&self, seat: &mut Seat<u8, View>, word: u64, key: u64) -> Option<Option<u64>>
        requires seat { IsPassSeat self.now seat.old.table_id seat.old.me }
        requires row { IsRowNumber self.now.counts (row_in word) }
        requires page { (page : PlainPage) × ReadsVersion seat.old.me word page }
        ensures same { IsSameSeat seat.old seat.new }
        ensures said { IfSome result (λ said. (page : PlainPage) → ReadsVersion seat.old.me word page
            → IsSaid key page said) }
        ensures silent { IfNone result ((page : PlainPage) → (is : ReadsVersion seat.old.me word page)
            → value_at key page.entries ≡ value_at key is.base.entries) }
    {
        let records = records_in(word);
        if records.count == 0 {
            return None;
        }
        let start = self.row_place(row_in(word));
        let base = self.load_word(seat, start, COUNT) as usize;
        let mut left = records.count;
        while left > 0 {
            left -= 1;
            let at = HEAD_WORDS + ENTRY_WORDS * (base + usize::from(left));
            if self.load_word(seat, start, at) == key {
                let pointer = self.load_word(seat, start, at + 1);
                let kind = records.kind(left);
                return Some(Record { kind, key, pointer }.pointer_after());
            }
        }
        None
    }

    // Where the key leads from the page of this level whose row the seat reads. If that page is the key's leaf, also the pointer
    // stored for the key. The page's high key matters only behind its last entry, since no entry's key is above it.
    fn way_from(
        &self,
        seat: &mut Seat<u8, View>,
        row: u64,
        level: u8,
        key: u64,
        hint: usize,
    ) -> (Way, Option<u64>)
        requires seat { IsPassSeat self.now seat.old.table_id seat.old.me }
        requires row { IsRowNumber self.now.counts row }
        requires page { (page : PlainPage) × ReadsPage seat.old.me row page × (page.level ≡ level) }
        ensures same { IsSameSeat seat.old seat.new }
        ensures way { (page : PlainPage) → ReadsPage seat.old.me row page → page.level ≡ level
            → TellsWayFor key page result.0 result.1 }
    {
        let start = self.row_place(row);
        if let Some((found, value)) = self.entry_from(seat, start, key, hint) {
            if level > 0 {
                return (Way::Down(value as u32), None);
            }
            return (Way::Here, kept_under(key, found, value));
        }
        if key > self.load_word(seat, start, HIGH_KEY) {
            let right = self.load_word(seat, start, RIGHT_LINK);
            return (Way::Right(right as u32), None);
        }
        (Way::Here, None)
    }

    // The first entry whose key is at least `key`, in the page whose row the seat reads.
    fn entry_from(
        &self,
        seat: &mut Seat<u8, View>,
        start: usize,
        key: u64,
        hint: usize,
    ) -> Option<(u64, u64)>
        requires seat { IsPassSeat self.now seat.old.table_id seat.old.me }
        requires inside { start + ROW_WORDS ≤ word_count self.now.counts }
        requires page { (row : ℕ) × (page : PlainPage) × (start ≡ row_start self.now.counts row)
            × ReadsPage seat.old.me row page }
        ensures same { IsSameSeat seat.old seat.new }
        ensures entry { (row : ℕ) (page : PlainPage) → start ≡ row_start self.now.counts row
            → ReadsPage seat.old.me row page
            → result ≡ slice_get page.entries (place_of key page.entries) }
    {
        let count = self.load_word(seat, start, COUNT) as usize;
        let place = self.place_in_row(seat, start, count, key, hint);
        if place == count {
            return None;
        }
        let at = HEAD_WORDS + ENTRY_WORDS * place;
        let found = self.load_word(seat, start, at);
        Some((found, self.load_word(seat, start, at + 1)))
    }

    // The place of the first entry whose key is at least `key`, in a page of so many entries.
    fn place_in_row(
        &self,
        seat: &mut Seat<u8, View>,
        start: usize,
        count: usize,
        key: u64,
        hint: usize,
    ) -> usize
        requires seat { IsPassSeat self.now seat.old.table_id seat.old.me }
        requires inside { start + ROW_WORDS ≤ word_count self.now.counts }
        requires page { (row : ℕ) × (page : PlainPage) × (start ≡ row_start self.now.counts row)
            × ReadsPage seat.old.me row page × (count ≡ length page.entries) }
        ensures same { IsSameSeat seat.old seat.new }
        ensures place { (row : ℕ) (page : PlainPage) → start ≡ row_start self.now.counts row
            → ReadsPage seat.old.me row page
            → count ≡ length page.entries
            → result ≡ place_of key page.entries }
    {
        if hint == 0 && count >= LINE {
            return self.place_by_lines(seat, start, count, key);
        }
        self.place_behind(seat, start, count, key, hint)
    }

    // The same of a page with a line of the cache or more. It compares the last key of each line, and then four keys, all without a branch on
    // a key, since none could be foretold.
    fn place_by_lines(
        &self,
        seat: &mut Seat<u8, View>,
        start: usize,
        count: usize,
        key: u64,
    ) -> usize
        requires seat { IsPassSeat self.now seat.old.table_id seat.old.me }
        requires inside { start + ROW_WORDS ≤ word_count self.now.counts }
        requires page { (row : ℕ) × (page : PlainPage) × (start ≡ row_start self.now.counts row)
            × ReadsPage seat.old.me row page × (count ≡ length page.entries) }
        requires line { LINE ≤ count }
        ensures same { IsSameSeat seat.old seat.new }
        ensures place { (row : ℕ) (page : PlainPage) → start ≡ row_start self.now.counts row
            → ReadsPage seat.old.me row page
            → count ≡ length page.entries
            → result ≡ place_of key page.entries }
    {
        let first = (LINE * self.lines_passed(seat, start, count, key)).min(count - LINE);
        first
            + self.one_if_below(seat, start, first, key)
            + self.one_if_below(seat, start, first + 1, key)
            + self.one_if_below(seat, start, first + 2, key)
            + self.one_if_below(seat, start, first + 3, key)
    }

    // The number of whole lines before that place.
    fn lines_passed(&self, seat: &mut Seat<u8, View>, start: usize, count: usize, key: u64) -> usize
        requires seat { IsPassSeat self.now seat.old.table_id seat.old.me }
        requires inside { start + ROW_WORDS ≤ word_count self.now.counts }
        requires few { count ≤ MAX_FAN }
        ensures same { IsSameSeat seat.old seat.new }
        ensures few { LINE * result ≤ count }
        ensures lines { (row : ℕ) (page : PlainPage) → start ≡ row_start self.now.counts row
            → ReadsPage seat.old.me row page
            → count ≡ length page.entries
            → (LINE * result ≤ place_of key page.entries)
            × (place_of key page.entries < LINE * result + LINE) }
    {
        let mut lines = 0;
        for line in 0..count / LINE {
            lines += self.one_if_below(seat, start, LINE * line + LINE - 1, key);
        }
        lines
    }

    // 1 if the key of the entry at this place is below `key`, and 0 if not.
    fn one_if_below(&self, seat: &mut Seat<u8, View>, start: usize, place: usize, key: u64) -> usize
        requires seat { IsPassSeat self.now seat.old.table_id seat.old.me }
        requires inside { start + ROW_WORDS ≤ word_count self.now.counts }
        requires place { place < MAX_FAN }
        ensures same { IsSameSeat seat.old seat.new }
        ensures at_most { result ≤ 1 }
        ensures one { (row : ℕ) (page : PlainPage) → start ≡ row_start self.now.counts row
            → ReadsPage seat.old.me row page
            → place < length page.entries
            → (place < place_of key page.entries → result ≡ 1)
            × (place_of key page.entries ≤ place → result ≡ 0) }
    {
        let found = self.load_word(seat, start, HEAD_WORDS + ENTRY_WORDS * place);
        usize::from(found < key)
    }

    // The same of any page, by one entry after another. The search begins at the hint, if that is before the place.
    fn place_behind(
        &self,
        seat: &mut Seat<u8, View>,
        start: usize,
        count: usize,
        key: u64,
        hint: usize,
    ) -> usize
        requires seat { IsPassSeat self.now seat.old.table_id seat.old.me }
        requires inside { start + ROW_WORDS ≤ word_count self.now.counts }
        requires page { (row : ℕ) × (page : PlainPage) × (start ≡ row_start self.now.counts row)
            × ReadsPage seat.old.me row page × (count ≡ length page.entries) }
        ensures same { IsSameSeat seat.old seat.new }
        ensures place { (row : ℕ) (page : PlainPage) → start ≡ row_start self.now.counts row
            → ReadsPage seat.old.me row page
            → count ≡ length page.entries
            → result ≡ place_of key page.entries }
    {
        let first = self.first_place(seat, start, count, key, hint);
        for place in first..count {
            if key <= self.load_word(seat, start, HEAD_WORDS + ENTRY_WORDS * place) {
                return place;
            }
        }
        count
    }

    // The place of the entry at which a search of the page may begin: the hint, if the entry before it has a lesser key; else the
    // page's first.
    fn first_place(
        &self,
        seat: &mut Seat<u8, View>,
        start: usize,
        count: usize,
        key: u64,
        hint: usize,
    ) -> usize
        requires seat { IsPassSeat self.now seat.old.table_id seat.old.me }
        requires inside { start + ROW_WORDS ≤ word_count self.now.counts }
        requires page { (row : ℕ) × (page : PlainPage) × (start ≡ row_start self.now.counts row)
            × ReadsPage seat.old.me row page × (count ≡ length page.entries) }
        ensures same { IsSameSeat seat.old seat.new }
        ensures place { (row : ℕ) (page : PlainPage) → start ≡ row_start self.now.counts row
            → ReadsPage seat.old.me row page
            → count ≡ length page.entries
            → result ≤ place_of key page.entries }
    {
        if hint == 0 || hint > count {
            return 0;
        }
        if self.load_word(seat, start, HEAD_WORDS + ENTRY_WORDS * (hint - 1)) < key {
            return hint;
        }
        0
    }

    // The place in the table where the row begins. The loads of its words share it, since each is a load that the compiler can't
    // move.
    pub(crate) fn row_place(&self, row: u64) -> usize
        requires row { IsRowNumber self.now.counts row }
        ensures start { result ≡ row_start self.now.counts row }
        ensures inside { result + ROW_WORDS ≤ word_count self.now.counts }
    {
        // Called for the proof: a place in the table is a `usize`.
        let _count = self.table.word_count();
        self.counts.row_start(row) as usize
    }

    // Loads a word of the row that begins at `start`.
    pub(crate) fn load_word(&self, seat: &mut Seat<u8, View>, start: usize, place: usize) -> u64
        requires seat { IsPassSeat self.now seat.old.table_id seat.old.me }
        requires inside { start + ROW_WORDS ≤ word_count self.now.counts }
        requires place { place < ROW_WORDS }
        ensures same { IsSameSeat seat.old seat.new }
        ensures word { (row : ℕ) (content : List ℕ) → start ≡ row_start self.now.counts row
            → seat.old.me.0.reads ≡ Some (row, content)
            → place < length content
            → result ≡ slice_index content place }
        ensures behind { (row : ℕ) (content : List ℕ) (i : ℕ)
            → start ≡ row_start self.now.counts row
            → seat.old.me.0.reads ≡ Some (row, content)
            → place ≡ length content + i → i < length seat.old.me.0.behind
            → result ≡ slice_index seat.old.me.0.behind i }
    {
        // Called for the proof: a place in the table is a `usize`.
        let _count = self.table.word_count();
        self.table.shared.load::<LoadWord>(seat, start + place)
    }

    // Reads all of the page that the operation has latched, and hands it to the operation.
    pub(crate) fn read_latched(&self, seat: &mut Seat<u8, View>, machine: &mut Machine, number: u32)
        requires seat { IsPassSeat self.now seat.old.table_id seat.old.me }
        requires at { seat.old.me.0.operation ≡ Some machine.old }
        requires fits { FitsWords machine.old.op }
        requires needs { NeedsPage machine.old number }
        requires in_range { (1 ≤ number) × (number < self.now.counts.numbers) }
        requires announced { IsAnnounced seat.old.me.0 }
        ensures same { HasSameNumber seat.old seat.new }
        ensures read { (word : ℕ) × LoadsPage machine.old number seat.old.me word machine.new seat.new.me }
    {
        let word = self.load_page(seat, number);
        let page = self.page_in_row(seat, word);
        machine.saw_own_page(page);
    }

    // Loads the word of the page that the operation of the view needs next.
    pub(crate) fn load_page(&self, seat: &mut Seat<u8, View>, number: u32) -> u64
        requires seat { IsPassSeat self.now seat.old.table_id seat.old.me }
        requires at { (m : PlainMachine) × (seat.old.me.0.operation ≡ Some m) × FitsWords m.op
            × NeedsPage m number }
        requires in_range { (1 ≤ number) × (number < self.now.counts.numbers) }
        requires announced { IsAnnounced seat.old.me.0 }
        ensures same { HasSameNumber seat.old seat.new }
        ensures read { (m : PlainMachine) → seat.old.me.0.operation ≡ Some m → NeedsPage m number
            → (machine : PlainMachine) × LoadsPage m number seat.old.me result machine seat.new.me }
    {
        self.table.shared.load::<LoadPage>(seat, number as usize)
    }

    // The page that the seat reads: the base that its row begins with, as the records behind the base change it.
    pub(crate) fn page_in_row(&self, seat: &mut Seat<u8, View>, word: u64) -> Page
        requires seat { IsPassSeat self.now seat.old.table_id seat.old.me }
        requires row { IsRowNumber self.now.counts (row_in word) }
        requires page { (page : PlainPage) × ReadsVersion seat.old.me word page }
        ensures same { IsSameSeat seat.old seat.new }
        ensures page { (page : PlainPage) → ReadsVersion seat.old.me word page → result ≡ page }
    {
        let row = row_in(word);
        let records = records_in(word);
        let mut page = self.base_in_row(seat, row);
        if records.count == 0 {
            return page;
        }
        let start = self.row_place(row);
        let base = page.items.len();
        for older in 0..records.count {
            let at = HEAD_WORDS + ENTRY_WORDS * (base + usize::from(older));
            let key = self.load_word(seat, start, at);
            let pointer = self.load_word(seat, start, at + 1);
            let kind = records.kind(older);
            Record { kind, key, pointer }.apply(&mut page);
        }
        page
    }

    // The page that stands at the begin of the row that the seat reads. Its words aren't tested, since they are a lawful page's.
    fn base_in_row(&self, seat: &mut Seat<u8, View>, row: u64) -> Page
        requires seat { IsPassSeat self.now seat.old.table_id seat.old.me }
        requires row { IsRowNumber self.now.counts row }
        requires page { (page : PlainPage) × ReadsPage seat.old.me row page }
        ensures same { IsSameSeat seat.old seat.new }
        ensures page { (page : PlainPage) → ReadsPage seat.old.me row page → result ≡ page }
    {
        let start = self.row_place(row);
        let level = self.load_word(seat, start, LEVEL);
        let has_floor = self.load_word(seat, start, HAS_FLOOR);
        let floor = self.load_word(seat, start, FLOOR);
        let high = self.load_word(seat, start, HIGH_KEY);
        let right = self.load_word(seat, start, RIGHT_LINK);
        let count = self.load_word(seat, start, COUNT) as usize;
        let mut items = ArrayVec::new();
        for place in 0..count {
            let at = HEAD_WORDS + ENTRY_WORDS * place;
            let key = self.load_word(seat, start, at);
            items.push((key, self.load_word(seat, start, at + 1)));
        }
        Page {
            level: level as u8,
            floor: floor_of(has_floor, floor),
            high,
            right: link_of(right),
            items,
        }
    }

    // Loads the words of the row that begins at `start`, from `from` to before `to`.
    fn load_words(
        &self,
        seat: &mut Seat<u8, View>,
        start: usize,
        words: &mut [u64; ROW_WORDS],
        from: usize,
        to: usize,
    )
        requires seat { IsPassSeat self.now seat.old.table_id seat.old.me }
        requires inside { start + ROW_WORDS ≤ word_count self.now.counts }
        requires places { (from ≤ to) × (to ≤ ROW_WORDS) }
        ensures same { IsSameSeat seat.old seat.new }
        ensures width { length words.new ≡ ROW_WORDS }
        ensures loaded { (row : ℕ) (content : List ℕ) → start ≡ row_start self.now.counts row
            → seat.old.me.0.reads ≡ Some (row, content)
            → (n : ℕ) → from ≤ n
            → n < to
            → n < length content
            → slice_index words.new n ≡ slice_index content n }
        ensures others { IsSameOutside from to words.old words.new }
    {
        for n in from..to {
            words[n] = self.load_word(seat, start, n);
        }
    }

    // Reads the prime block for an operation under way, and returns whether the operation moved. It waits if the level that it
    // posts to isn't there yet.
    pub(crate) fn read_prime(&self, seat: &mut Seat<u8, View>, machine: &mut Machine) -> bool
        requires seat { IsPassSeat self.now seat.old.table_id seat.old.me }
        requires at { seat.old.me.0.operation ≡ Some machine.old }
        requires fits { FitsWords machine.old.op }
        requires needs { NeedsPrime machine.old }
        requires announced { IsAnnounced seat.old.me.0 }
        ensures same { HasSameNumber seat.old seat.new }
        ensures read { (row : ℕ) × LoadsPrime machine.old seat.old.me row machine.new seat.new.me }
        ensures moved { OnTrue result ((prime : List ℕ) × SeesPrime machine.old prime machine.new) }
        ensures waits { OnFalse result (machine.new ≡ machine.old) }
    {
        let word = self.table.shared.load::<LoadPrime>(seat, 0);
        let row = row_in(word);
        let words = self.prime_words(seat, row);
        let Some(prime) = row_prime(&words) else {
            unreachable!()
        };
        machine.saw_prime(&prime)
    }

    // The row of the prime block that the seat reads. The words behind the prime block's are 0.
    fn prime_words(&self, seat: &mut Seat<u8, View>, row: u64) -> [u64; ROW_WORDS]
        requires seat { IsPassSeat self.now seat.old.table_id seat.old.me }
        requires row { IsRowNumber self.now.counts row }
        requires prime { (prime : List ℕ) × ReadsPrime seat.old.me row prime }
        ensures same { IsSameSeat seat.old seat.new }
        ensures words { (prime : List ℕ) → ReadsPrime seat.old.me row prime → IsPrimeRow prime result }
    {
        let start = self.row_place(row);
        let mut words = [0; ROW_WORDS];
        self.load_words(seat, start, &mut words, 0, HEAD_WORDS);
        let stop = HEAD_WORDS + words[COUNT] as usize;
        self.load_words(seat, start, &mut words, HEAD_WORDS, stop);
        words
    }
}

// The pointer stored for `key`, if `found` is the first key that is at least `key`, and `value` its pointer.
pub(crate) fn kept_under(key: u64, found: u64, value: u64) -> Option<u64>
    ensures { (from to : ℕ) (entries : List (ℕ × ℕ)) → IsRising from entries to
        → Some (found, value) ≡ slice_get entries (place_of key entries)
        → result ≡ value_at key entries }
{
    if found == key { Some(value) } else { None }
}

// The floor that these two words of a page's row store.
fn floor_of(has_floor: u64, word: u64) -> Option<u64>
    ensures { (page : PlainPage) → has_floor ≡ slice_index (page_words page) 1
        → word ≡ slice_index (page_words page) 2
        → result ≡ page.floor }
{
    if has_floor == 0 { None } else { Some(word) }
}

// The right link that this word of a page's row stores.
pub(crate) fn link_of(word: u64) -> Option<u32>
    requires { (page : PlainPage) × IsLawfulPage MAX_FAN page × (word ≡ slice_index (page_words page) 4) }
    ensures { (page : PlainPage) → IsLawfulPage MAX_FAN page → word ≡ slice_index (page_words page) 4
        → result ≡ page.right }
{
    if word == 0 { None } else { Some(word as u32) }
}
