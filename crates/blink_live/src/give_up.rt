//! How an operation is given up that has changed nothing, so that its seat needs no room for a machine that rests.
ghost use Rattle.std.specs.Prelude.{◌≡◌, ℕ, ◌<◌, None, Some, IfNone, IfSome};
ghost use Rattle.atomic_table.specs.declared.Seat.{Seat};
ghost use Rattle.blink_batch.specs.{FitsWords, key_of};
ghost use Rattle.blink_machine.specs.{IsUpdate};
ghost use Rattle.blink_live.specs.declared.descent.Changed.{Changed};
ghost use Rattle.blink_live.specs.declared.view.View.{View};
ghost use Rattle.blink_live.specs.GivingUp.{HasGivenUp, MayGiveUp, gives_up};
ghost use Rattle.blink_live.specs.Seats.{HasSameNumber, IsPassSeat};
ghost use Rattle.blink_live.specs.Shelves.{IsShelved};
ghost use Rattle.blink_live.specs.Straight.{HasCome, wanting};
ghost use Rattle.blink_live.specs.Updating.{HasRowsFor, IsUnderWay, room_in};
ghost use Rattle.blink_live.specs.Views.{CanBegin, MayChange};

use crate::descent::{Descent, Turned};
use crate::live::Live;
use crate::room::Room;
use crate::rule::GiveUp;
use crate::view::View;
use atomic_table::Seat;
use blink_batch::{Answer, Op};
use std::hint;

impl Live {
    /// Runs a new operation that changes the tree, as `change_by` does, but gives it up where that lets it rest, and where the operation
    /// has to split its leaf. Then there is no answer, and the operation has changed nothing. It waits for nobody, and takes as many
    /// steps in vain as `tries` says, at least one, before it gives up.
    pub fn try_change_by(
        &self,
        seat: &mut Seat<u8, View>,
        room: &mut Room,
        op: Op,
        tries: u32,
    ) -> Option<Answer>
        requires seat { IsPassSeat self.now seat.old.table_id seat.old.me }
        requires idle { seat.old.me.0.operation ≡ None }
        requires fits { FitsWords op }
        requires updates { IsUpdate op }
        requires can_begin { CanBegin seat.old.me.0 op }
        requires room { room.old ≡ room_in op seat.old.me.0 room.old.shelf }
        requires shelved { IsShelved room.old.shelf seat.old.me.0 }
        requires enough { HasRowsFor op seat.old.me.0.rows room.old.shelf }
        requires may { MayChange seat.old.me.0 (key_of op) }
        ensures came { IfSome result
            (λ answer. HasCome self.now op seat.old seat.new room.new (Changed.Ended answer)) }
        ensures given_up { IfNone result (HasGivenUp self.now op seat.old seat.new room.new) }
    {
        let mut descent = Descent::new();
        self.set_off(seat, room, op, &mut descent);
        self.try_change_from(seat, room, op, &mut descent, tries)
    }

    // Changes the leaf of an operation that wants its latch, or gives the operation up.
    fn try_change_from(
        &self,
        seat: &mut Seat<u8, View>,
        room: &mut Room,
        op: Op,
        descent: &mut Descent,
        tries: u32,
    ) -> Option<Answer>
        requires wants { (first : Seat ℕ View)
            × IsUnderWay self.now op first seat.old (wanting self.now.fan op descent.old) room.old }
        ensures came { IfSome result (λ answer. (first : Seat ℕ View)
            → IsUnderWay self.now op first seat.old (wanting self.now.fan op descent.old) room.old
            → HasCome self.now op first seat.new room.new (Changed.Ended answer)) }
        ensures given_up { IfNone result ((first : Seat ℕ View)
            → IsUnderWay self.now op first seat.old (wanting self.now.fan op descent.old) room.old
            → HasGivenUp self.now op first seat.new room.new) }
    {
        let mut left = tries;
        // The range ends for the proof alone, which knows no bound of an operation's steps.
        for _ in 0..u64::MAX {
            match self.change_leaf(seat, room, op, descent) {
                Turned::Ended(answer) => return Some(answer),
                Turned::Moved => {}
                Turned::Whole(_word) => {
                    self.give_latch_up(seat, descent.leaf);
                    return None;
                }
                Turned::Waits => {
                    left = left.saturating_sub(1);
                    if left == 0 {
                        break;
                    }
                    hint::spin_loop();
                }
            }
        }
        self.give_up(seat);
        None
    }

    // The seat's operation, which holds no latch, is given up.
    fn give_up(&self, seat: &mut Seat<u8, View>)
        requires seat { IsPassSeat self.now seat.old.table_id seat.old.me }
        requires may { MayGiveUp seat.old.me.0 None }
        ensures same { HasSameNumber seat.old seat.new }
        ensures idle { seat.new.me ≡ (gives_up seat.old.me.0, seat.old.me.1) }
    {
        self.table.shared.load::<GiveUp>(seat, 0);
    }

    // The seat's operation is given up, with the latch of the page that it has latched.
    fn give_latch_up(&self, seat: &mut Seat<u8, View>, number: u32)
        requires seat { IsPassSeat self.now seat.old.table_id seat.old.me }
        requires may { MayGiveUp seat.old.me.0 (Some number) }
        requires in_range { number < self.now.counts.numbers }
        ensures same { HasSameNumber seat.old seat.new }
        ensures idle { seat.new.me ≡ (gives_up seat.old.me.0, seat.old.me.1) }
    {
        let word = self.latch_place(number);
        self.table.shared.store::<GiveUp>(seat, word, 0);
    }
}
