//! The straight path of an operation that changes the tree. It goes down to its leaf, latches it, and changes it, as an operation
//! with a machine does, and takes the same steps. But no value of its machine is made: the machine is in the seat's view, for the
//! proofs. Only where the leaf is full, or the operation has to wait, a machine is made, and the operation goes on with that.
ghost use Rattle.std.specs.Prelude.{◌≡◌, ◌≢◌, ◌↔◌, ℕ, ◌+◌, ◌<◌, ◌≤◌, None, Some, IfErr, IfOk, IfSome, IfNone, IsTrue, length};
ghost use Rattle.atomic_table.specs.declared.Seat.{Seat};
ghost use Rattle.blink_batch.specs.{FitsWords, answer_at, key_of};
ghost use Rattle.blink_batch.specs.declared.Op.{Op};
ghost use Rattle.blink_batch.specs.declared.Op.TheVariants.{Insert};
ghost use Rattle.blink_page.specs.{IsFan, PlainPage};
ghost use Rattle.blink_rows.specs.{row_in};
ghost use Rattle.blink_machine.specs.declared.machine.Job.TheVariants.{Leaf};
ghost use Rattle.blink_machine.specs.declared.machine.Next.TheVariants.{Finish, MoveRight};
ghost use Rattle.blink_machine.specs.declared.machine.State.{State};
ghost use Rattle.blink_machine.specs.declared.machine.State.TheVariants.{Ended, Held, Leave};
ghost use Rattle.blink_machine.specs.{IsUpdate, PlainMachine};
ghost use Rattle.blink_live.specs.declared.descent.Changed.{Changed};
ghost use Rattle.blink_live.specs.declared.descent.Edit.TheVariants.{Write};
ghost use Rattle.blink_live.specs.declared.view.View.{View};
ghost use Rattle.blink_live.specs.Pendings.{IsWaiting};
ghost use Rattle.blink_live.specs.Seats.{IsPassSeat, IsSameSeat, ReadsVersion};
ghost use Rattle.blink_live.specs.Shelves.{IsShelved};
ghost use Rattle.blink_live.specs.Straight.{HasCome, HasMet, HasTurned, IsEditOf, IsToChange, NeedsWhole, exchange_of, holding, leaving, page_at, removal_of, wanting};
ghost use Rattle.blink_live.specs.Updating.{HasRowsFor, IsUnderWay, room_in};
ghost use Rattle.blink_live.specs.Views.{CanBegin, MayChange};
ghost use Rattle.blink_live.specs.Words.{IsRowNumber};

use crate::descent::{Changed, Descent, Edit, Spot, Turned};
use crate::live::Live;
use crate::room::Room;
use crate::view::View;
use arrayvec::ArrayVec;
use atomic_table::Seat;
use blink_batch::{Answer, Op};
use blink_machine::{Machine, Resting};
use blink_page::{LEVELS, Way};
use blink_rows::layout::COUNT;
use blink_rows::{Kind, Record, records_in, row_in};
use std::hint;

impl Live {
    /// Runs a new operation that changes the tree until it has ended, or has to wait. It waits for nobody, and takes as many steps
    /// in vain as `tries` says, at least one, before it gives up and rests. Where it rests it holds no latch.
    pub fn change_by(
        &self,
        seat: &mut Seat<u8, View>,
        room: &mut Room,
        op: Op,
        tries: u32,
    ) -> Changed
        requires seat { IsPassSeat self.now seat.old.table_id seat.old.me }
        requires idle { seat.old.me.0.operation ≡ None }
        requires fits { FitsWords op }
        requires updates { IsUpdate op }
        requires can_begin { CanBegin seat.old.me.0 op }
        requires room { room.old ≡ room_in op seat.old.me.0 room.old.shelf }
        requires shelved { IsShelved room.old.shelf seat.old.me.0 }
        requires enough { HasRowsFor op seat.old.me.0.rows room.old.shelf }
        requires may { MayChange seat.old.me.0 (key_of op) }
        ensures came { HasCome self.now op seat.old seat.new room.new result }
    {
        let mut descent = Descent::new();
        self.set_off(seat, room, op, &mut descent);
        self.change_from(seat, room, op, &mut descent, tries)
    }

    /// Goes on with an operation that rests, until it has ended, or has to wait again. It waits for nobody, and takes as many steps in
    /// vain as `tries` says, at least one, before it gives up and rests. Where it rests it holds no latch.
    pub fn resume(
        &self,
        seat: &mut Seat<u8, View>,
        room: &mut Room,
        resting: &Resting,
        tries: u32,
    ) -> Changed
        requires under_way { (op : Op) × (first : Seat ℕ View)
            × IsUnderWay self.now op first seat.old resting.now room.old }
        requires waits { IsWaiting resting.now }
        ensures { (op : Op) (first : Seat ℕ View)
            → IsUnderWay self.now op first seat.old resting.now room.old
            → HasCome self.now op first seat.new room.new result }
    {
        match self.descent_of(resting) {
            Some(mut descent) => { self.change_from(seat, room, resting.op(), &mut descent, tries) }
            None => self.step_on(seat, room, resting, tries),
        }
    }

    // The way of an operation that wants its leaf's latch and has decided nothing yet. Where it posts, or remembers more pages than a
    // descent has, there is none.
    fn descent_of(&self, resting: &Resting) -> Option<Descent>
        ensures { IfSome result
            (λ descent. resting.now ≡ wanting self.now.fan resting.now.op descent) }
    {
        let leaf = resting.leaf(self.fan)?;
        let pages = resting.remembered();
        if pages.len() + 1 >= LEVELS {
            return None;
        }
        let mut above = ArrayVec::new();
        let _fits = above.try_extend_from_slice(pages);
        Some(Descent { leaf, above })
    }

    // Changes the leaf of an operation that wants its latch, and goes on to its end, or until it has to wait.
    fn change_from(
        &self,
        seat: &mut Seat<u8, View>,
        room: &mut Room,
        op: Op,
        descent: &mut Descent,
        tries: u32,
    ) -> Changed
        requires wants { (first : Seat ℕ View)
            × IsUnderWay self.now op first seat.old (wanting self.now.fan op descent.old) room.old }
        ensures { (first : Seat ℕ View)
            → IsUnderWay self.now op first seat.old (wanting self.now.fan op descent.old) room.old
            → HasCome self.now op first seat.new room.new result }
    {
        let mut left = tries;
        // The range ends for the proof alone, which knows no bound of an operation's steps.
        for _ in 0..u64::MAX {
            match self.change_leaf(seat, room, op, descent) {
                Turned::Ended(answer) => return Changed::Ended(answer),
                Turned::Moved => {}
                Turned::Whole(word) => {
                    return self.go_on_whole(seat, room, op, descent, word, left);
                }
                Turned::Waits => {
                    left = left.saturating_sub(1);
                    if left == 0 {
                        return self.rest_at(op, descent);
                    }
                    hint::spin_loop();
                }
            }
        }
        self.rest_at(op, descent)
    }

    // Goes on with the machine of an operation that rests.
    #[cold]
    #[inline(never)]
    fn step_on(
        &self,
        seat: &mut Seat<u8, View>,
        room: &mut Room,
        resting: &Resting,
        tries: u32,
    ) -> Changed
        requires under_way { (op : Op) × (first : Seat ℕ View)
            × IsUnderWay self.now op first seat.old resting.now room.old }
        requires waits { IsWaiting resting.now }
        ensures { (op : Op) (first : Seat ℕ View)
            → IsUnderWay self.now op first seat.old resting.now room.old
            → HasCome self.now op first seat.new room.new result }
    {
        let mut machine = resting.resume();
        match self.take_steps(seat, &mut machine, room, tries) {
            Some(answer) => Changed::Ended(answer),
            None => Changed::Rests(machine.rest()),
        }
    }

    // Takes an operation that wants its leaf's latch through its change of the leaf. Where the leaf is full, the operation still
    // holds its latch afterwards.
    pub(crate) fn change_leaf(
        &self,
        seat: &mut Seat<u8, View>,
        room: &mut Room,
        op: Op,
        descent: &mut Descent,
    ) -> Turned
        requires wants { (first : Seat ℕ View)
            × IsUnderWay self.now op first seat.old (wanting self.now.fan op descent.old) room.old }
        ensures { (first : Seat ℕ View)
            → IsUnderWay self.now op first seat.old (wanting self.now.fan op descent.old) room.old
            → HasTurned self.now op descent.new first seat.new room.new result }
    {
        if !self.latch_leaf(seat, room, op, descent) {
            return Turned::Waits;
        }
        match self.read_leaf(seat, room, op, descent) {
            Edit::Right(next) => {
                self.free_latch(seat, descent.leaf);
                descent.leaf = next;
                Turned::Moved
            }
            Edit::Answers(kept) => {
                self.free_latch(seat, descent.leaf);
                Turned::Ended(op.answer(kept))
            }
            Edit::Whole(word) => Turned::Whole(word),
            Edit::Write(spot, change) => {
                self.write_record(seat, room, op, descent, &spot, &change);
                self.free_latch(seat, descent.leaf);
                Turned::Ended(op.answer(spot.kept))
            }
        }
    }

    // Tries to latch the leaf, and returns whether the operation has the latch.
    fn latch_leaf(&self, seat: &mut Seat<u8, View>, room: &Room, _op: Op, descent: &Descent) -> bool
        requires wants { (first : Seat ℕ View)
            × IsUnderWay self.now _op first seat.old (wanting self.now.fan _op descent.now) room.now }
        ensures got { IsTrue result → (first : Seat ℕ View)
            → IsUnderWay self.now _op first seat.old (wanting self.now.fan _op descent.now) room.now
            → IsUnderWay self.now _op first seat.new (holding self.now.fan _op descent.now) room.now }
        ensures lost { ¬ IsTrue result → (first : Seat ℕ View)
            → IsUnderWay self.now _op first seat.old (wanting self.now.fan _op descent.now) room.now
            → IsUnderWay self.now _op first seat.new (wanting self.now.fan _op descent.now) room.now }
    {
        self.take_latch(seat, descent.leaf, room.latch_number)
    }

    // Reads the leaf that the operation has latched, and returns what the operation makes of it.
    fn read_leaf(&self, seat: &mut Seat<u8, View>, _room: &Room, op: Op, descent: &Descent) -> Edit
        requires holds { (first : Seat ℕ View)
            × IsUnderWay self.now op first seat.old (holding self.now.fan op descent.now) _room.now }
        ensures { (first : Seat ℕ View)
            → IsUnderWay self.now op first seat.old (holding self.now.fan op descent.now) _room.now
            → HasMet self.now op descent.now first seat.new _room.now result }
    {
        let word = self.load_page(seat, descent.leaf);
        match self.way_in(seat, word, 0, op.key(), 0) {
            (Way::Right(next), _) => Edit::Right(next),
            (Way::Here, kept) => edit_of(op, self.fan, self.spot_in(seat, word, kept)),
            (Way::Down(_), _) => unreachable!(),
        }
    }

    // What the operation knows of the leaf that the seat reads and this page word names, where the leaf has this pointer for the key.
    fn spot_in(&self, seat: &mut Seat<u8, View>, word: u64, kept: Option<u64>) -> Spot
        requires seat { IsPassSeat self.now seat.old.table_id seat.old.me }
        requires row { IsRowNumber self.now.counts (row_in word) }
        requires page { (page : PlainPage) × ReadsVersion seat.old.me word page }
        ensures same { IsSameSeat seat.old seat.new }
        ensures word { result.word ≡ word }
        ensures kept { result.kept ≡ kept }
        ensures base { (page : PlainPage) → (is : ReadsVersion seat.old.me word page)
            → result.base ≡ length is.base.entries }
        ensures count { (page : PlainPage) → ReadsVersion seat.old.me word page
            → result.count ≡ length page.entries }
    {
        let start = self.row_place(row_in(word));
        let base = self.load_word(seat, start, COUNT) as usize;
        Spot {
            word,
            base,
            count: records_in(word).live(base),
            kept,
        }
    }

    // Changes the leaf as the record says: appends the record to the leaf's row, or writes the next version into another row where
    // this one has no room for a record more.
    fn write_record(
        &self,
        seat: &mut Seat<u8, View>,
        room: &mut Room,
        op: Op,
        descent: &Descent,
        spot: &Spot,
        change: &Record,
    )
        requires changes { (first : Seat ℕ View)
            × IsToChange self.now op descent.now first seat.old room.old spot.now change.now }
        ensures { (first : Seat ℕ View)
            → IsToChange self.now op descent.now first seat.old room.old spot.now change.now
            → IsUnderWay self.now op first seat.new (leaving self.now.fan op descent.now spot.now.kept)
            room.new }
    {
        if records_in(spot.word).has_room(spot.base) {
            self.append_leaf(seat, room, op, descent, spot, change);
            return;
        }
        self.put_leaf(seat, room, op, descent, spot, change);
    }

    // Reads the whole leaf whose latch the operation holds, and goes on as an operation with a machine does.
    #[cold]
    #[inline(never)]
    fn go_on_whole(
        &self,
        seat: &mut Seat<u8, View>,
        room: &mut Room,
        op: Op,
        descent: &Descent,
        word: u64,
        tries: u32,
    ) -> Changed
        requires whole { (first : Seat ℕ View)
            × NeedsWhole self.now op descent.now first seat.old room.old word }
        ensures { (first : Seat ℕ View)
            → NeedsWhole self.now op descent.now first seat.old room.old word
            → HasCome self.now op first seat.new room.new result }
    {
        self.fetch_row(room.first_row());
        let mut machine = self.machine_at(op, descent);
        machine.done(0);
        machine.saw_own_page(self.page_in_row(seat, word));
        match self.go_on(seat, &mut machine, room, tries) {
            Some(answer) => Changed::Ended(answer),
            None => Changed::Rests(machine.rest()),
        }
    }

    // Takes the steps of an operation that holds a latch, and those that follow.
    fn go_on(
        &self,
        seat: &mut Seat<u8, View>,
        machine: &mut Machine,
        room: &mut Room,
        tries: u32,
    ) -> Option<Answer>
        requires under_way { (op : Op) × (first : Seat ℕ View)
            × IsUnderWay self.now op first seat.old machine.old room.old }
        ensures under_way { (op : Op) (first : Seat ℕ View)
            → IsUnderWay self.now op first seat.old machine.old room.old
            → IsUnderWay self.now op first seat.new machine.new room.new }
        ensures ended { IfSome result
            (λ answer. (machine.new.state ≡ Ended) × (machine.new.answer ≡ Some answer)) }
        ensures waits { IfNone result (IsWaiting machine.new) }
    {
        self.leave(seat, machine, room);
        if machine.ended() {
            return machine.answer();
        }
        self.take_steps(seat, machine, room, tries)
    }

    // The operation rests: it wants its leaf's latch.
    fn rest_at(&self, op: Op, descent: &Descent) -> Changed
        requires fits { FitsWords op }
        requires updates { IsUpdate op }
        ensures { result ≡ Changed.Rests (wanting self.now.fan op descent.now) }
    {
        Changed::Rests(self.machine_at(op, descent).rest())
    }

    // The machine of an operation that wants its leaf's latch.
    #[inline(never)]
    pub(crate) fn machine_at(&self, op: Op, descent: &Descent) -> Machine
        requires fits { FitsWords op }
        requires updates { IsUpdate op }
        ensures { result ≡ wanting self.now.fan op descent.now }
    {
        let mut machine = Machine::new(op, self.fan);
        let levels = descent.above.len();
        machine.saw_top(levels as u8, descent.page_at(0));
        for place in 0..levels {
            machine.saw_way(Way::Down(descent.page_at(place + 1)), None);
        }
        machine.saw_way(Way::Here, None);
        machine
    }
}

impl Descent {
    // The page of this place on the way down: the leaf is the last.
    fn page_at(&self, place: usize) -> u32
        requires { place ≤ length self.now.above.items }
        ensures { result ≡ page_at self.now place }
    {
        match self.above.get(place) {
            Some(page) => *page,
            None => self.leaf,
        }
    }
}

// What an operation that changes the tree makes of its leaf, where the key's place there is this.
fn edit_of(op: Op, fan: u8, spot: Spot) -> Edit
    requires updates { IsUpdate op }
    requires fits { FitsWords op }
    requires fan { IsFan fan }
    ensures { IsEditOf op fan spot result }
{
    match op {
        Op::Insert(key, pointer) => insertion_of(fan, spot, key, pointer),
        Op::Delete(key) => {
            if spot.kept.is_none() {
                return Edit::Answers(None);
            }
            removal(spot, key)
        }
        Op::Replace(key, pointer) => {
            if spot.kept.is_none() {
                return Edit::Answers(None);
            }
            exchange(spot, key, pointer)
        }
        Op::Exchange(key, expected, pointer) => {
            if !has(&spot, expected) {
                return Edit::Answers(spot.kept);
            }
            exchange(spot, key, pointer)
        }
        Op::DeleteExact(key, expected) => {
            if !has(&spot, expected) {
                return Edit::Answers(spot.kept);
            }
            removal(spot, key)
        }
        Op::Find(_) => unreachable!(),
    }
}

// Whether the key has the expected pointer.
fn has(spot: &Spot, expected: u64) -> bool
    ensures { IsTrue result ↔ spot.now.kept ≡ Some expected }
{
    match spot.kept {
        Some(kept) => kept == expected,
        None => false,
    }
}

// The same of an insertion.
fn insertion_of(fan: u8, spot: Spot, key: u64, pointer: u64) -> Edit
    requires { IsFan fan }
    ensures { IsEditOf (Insert key pointer) fan spot result }
{
    if spot.kept.is_some() {
        return Edit::Answers(spot.kept);
    }
    if spot.count >= usize::from(fan) {
        return Edit::Whole(spot.word);
    }
    Edit::Write(
        spot,
        Record {
            kind: Kind::Added,
            key,
            pointer,
        },
    )
}

// The key is removed.
fn removal(spot: Spot, key: u64) -> Edit
    ensures { result ≡ Write spot (removal_of key) }
{
    Edit::Write(
        spot,
        Record {
            kind: Kind::Removed,
            key,
            pointer: 0,
        },
    )
}

// The key gets another pointer.
fn exchange(spot: Spot, key: u64, pointer: u64) -> Edit
    ensures { result ≡ Write spot (exchange_of key pointer) }
{
    Edit::Write(
        spot,
        Record {
            kind: Kind::Replaced,
            key,
            pointer,
        },
    )
}
