//! How an operation that changes the tree comes to its leaf. Of that it reads only whether its key belongs there, since it has to read the leaf
//! again under its latch. Meanwhile it fetches what it needs then: the latch's word and the lines of the row.
ghost use Rattle.std.specs.Prelude.{◌≡◌, ℕ, ◌<◌, ◌≤◌, None, Option};
ghost use Rattle.atomic_table.specs.declared.Seat.{Seat};
ghost use Rattle.blink_batch.specs.{FitsWords, key_of};
ghost use Rattle.blink_page.specs.{Leads, PlainPage};
ghost use Rattle.blink_rows.specs.{row_in};
ghost use Rattle.blink_machine.specs.{IsUpdate};
ghost use Rattle.blink_live.specs.declared.view.View.{View};
ghost use Rattle.blink_live.specs.Pendings.{IsWaiting};
ghost use Rattle.blink_live.specs.Seats.{HasRead, HasSameNumber, IsAtLeaf, IsAtPage, IsPassSeat, IsSameSeat, ReadsVersion, ReadsWay};
ghost use Rattle.blink_live.specs.Shelves.{IsShelved};
ghost use Rattle.blink_live.specs.Straight.{wanting};
ghost use Rattle.blink_live.specs.Updating.{HasRowsFor, IsUnderWay, room_in};
ghost use Rattle.blink_live.specs.Views.{CanBegin, MayChange, for_call, known_of};
ghost use Rattle.blink_live.specs.Words.{AreNumbersIn, AreRowsIn, IsRowNumber};

use crate::descent::Descent;
use crate::live::Live;
use crate::room::Room;
use crate::view::View;
use atomic_table::Seat;
use blink_batch::Op;
use blink_machine::Resting;
use blink_page::Way;
use blink_rows::layout::{HIGH_KEY, RIGHT_LINK};
use blink_rows::row_in;

impl Live {
    /// Takes a new operation to the leaf of its key, where it rests.
    pub fn set_out(&self, seat: &mut Seat<u8, View>, room: &Room, op: Op) -> Resting
        requires seat { IsPassSeat self.now seat.old.table_id seat.old.me }
        requires idle { seat.old.me.0.operation ≡ None }
        requires fits { FitsWords op }
        requires updates { IsUpdate op }
        requires can_begin { CanBegin seat.old.me.0 op }
        requires room { room.now ≡ room_in op seat.old.me.0 room.now.shelf }
        requires shelved { IsShelved room.now.shelf seat.old.me.0 }
        requires enough { HasRowsFor op seat.old.me.0.rows room.now.shelf }
        requires may { MayChange seat.old.me.0 (key_of op) }
        ensures under_way { IsUnderWay self.now op seat.old seat.new result room.now }
        ensures waits { IsWaiting result }
    {
        let mut descent = Descent::new();
        self.set_off(seat, room, op, &mut descent);
        self.machine_at(op, &descent).rest()
    }

    // Takes a new operation to the leaf of its key. The descent is the caller's, so that it isn't copied.
    pub(crate) fn set_off(
        &self,
        seat: &mut Seat<u8, View>,
        _room: &Room,
        op: Op,
        descent: &mut Descent,
    )
        requires seat { IsPassSeat self.now seat.old.table_id seat.old.me }
        requires idle { seat.old.me.0.operation ≡ None }
        requires fits { FitsWords op }
        requires updates { IsUpdate op }
        requires can_begin { CanBegin seat.old.me.0 op }
        requires room { _room.now ≡ room_in op seat.old.me.0 _room.now.shelf }
        requires shelved { IsShelved _room.now.shelf seat.old.me.0 }
        requires enough { HasRowsFor op seat.old.me.0.rows _room.now.shelf }
        requires may { MayChange seat.old.me.0 (key_of op) }
        ensures { IsUnderWay self.now op seat.old seat.new (wanting self.now.fan op descent.new)
            _room.now }
    {
        self.come_to_change(seat, op, descent);
    }

    // Brings a new operation that changes the tree to the leaf of its key. What a machine would remember is in the descent.
    fn come_to_change(&self, seat: &mut Seat<u8, View>, op: Op, descent: &mut Descent)
        requires seat { IsPassSeat self.now seat.old.table_id seat.old.me }
        requires idle { seat.old.me.0.operation ≡ None }
        requires fits { FitsWords op }
        requires updates { IsUpdate op }
        requires can_begin { CanBegin seat.old.me.0 op }
        ensures same_table { HasSameNumber seat.old seat.new }
        ensures rows { AreRowsIn self.now.counts seat.old.me.0.rows }
        ensures pages { AreNumbersIn self.now.counts seat.old.me.0.pages }
        ensures read { HasRead op (for_call seat.old.me.0 op, seat.old.me.1) seat.new.me
            (wanting self.now.fan op descent.new) }
        ensures at_leaf { IsAtLeaf op (known_of seat.new.me.0 (key_of op))
            (wanting self.now.fan op descent.new) }
    {
        let (mut number, mut level) = self.root(seat, op);
        let Descent { leaf, above } = descent;
        above.clear();
        loop {
            match self.way_of_change(seat, op.key(), number, level) {
                Way::Right(next) => number = next,
                Way::Down(child) => {
                    above.push(number);
                    number = child;
                    level -= 1;
                }
                Way::Here => {
                    *leaf = number;
                    return;
                }
            }
        }
    }

    // Reads the page that a descending change needs next, of this number and level, and returns where the key leads from there.
    fn way_of_change(&self, seat: &mut Seat<u8, View>, key: u64, number: u32, level: u8) -> Way
        requires seat { IsPassSeat self.now seat.old.table_id seat.old.me }
        requires at { IsAtPage seat.old.me key number level }
        requires in_range { (1 ≤ number) × (number < self.now.counts.numbers) }
        ensures same { HasSameNumber seat.old seat.new }
        ensures way { (at : IsAtPage seat.old.me key number level) → (word : ℕ) × (kept : Option ℕ)
            × ReadsWay at.machine key number word seat.old.me result kept seat.new.me }
    {
        if level == 0 {
            return self.reach_leaf(seat, key, number);
        }
        self.read_page(seat, key, number, level, 0).0
    }

    // The same of a leaf, whose latch the operation takes next, if the key belongs there.
    fn reach_leaf(&self, seat: &mut Seat<u8, View>, key: u64, number: u32) -> Way
        requires seat { IsPassSeat self.now seat.old.table_id seat.old.me }
        requires at { IsAtPage seat.old.me key number 0 }
        requires in_range { (1 ≤ number) × (number < self.now.counts.numbers) }
        ensures same { HasSameNumber seat.old seat.new }
        ensures way { (at : IsAtPage seat.old.me key number 0) → (word : ℕ) × (kept : Option ℕ)
            × ReadsWay at.machine key number word seat.old.me result kept seat.new.me }
    {
        let word = self.load_page(seat, number);
        self.table.shared.peek(self.latch_place(number));
        self.fetch_row(row_in(word));
        self.side_of(seat, word, key)
    }

    // Where the key leads from the leaf whose version the seat reads: it belongs there, or to the right of it.
    fn side_of(&self, seat: &mut Seat<u8, View>, word: u64, key: u64) -> Way
        requires seat { IsPassSeat self.now seat.old.table_id seat.old.me }
        requires row { IsRowNumber self.now.counts (row_in word) }
        requires page { (page : PlainPage) × ReadsVersion seat.old.me word page × (page.level ≡ 0) }
        ensures same { IsSameSeat seat.old seat.new }
        ensures way { (page : PlainPage) → ReadsVersion seat.old.me word page → page.level ≡ 0
            → Leads page key result }
    {
        let start = self.row_place(row_in(word));
        if key > self.load_word(seat, start, HIGH_KEY) {
            let right = self.load_word(seat, start, RIGHT_LINK);
            return Way::Right(right as u32);
        }
        Way::Here
    }
}
