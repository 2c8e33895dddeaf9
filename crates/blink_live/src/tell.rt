//! Looking up any key, and telling another pass what one has seen.
ghost use Rattle.std.specs.Prelude.{◌≡◌, None, []};
ghost use mathlib.Core.List.{IsPrefix};
ghost use Rattle.blink_batch.specs.{pointer_of};
ghost use Rattle.blink_live.specs.Changes.{after};
ghost use Rattle.blink_live.specs.Handles.{IsPassOf, IsSameBesideSeen, KnowsItsKeys, opening_of, seen_of, IsSamePass, OneIsPrefix, SawAllOf, SawPrefixOf};
ghost use Rattle.blink_live.specs.declared.view.Role.TheVariants.{Spent};
ghost use Rattle.blink_live.specs.Seats.{HasSameNumber, IsIdleIn, IsPassSeat, IsSameSeat};
ghost use Rattle.blink_live.specs.AtomicSteps.{LooksBack, LooksUp};
ghost use Rattle.blink_live.specs.Views.{hears, note_of, plan_of};

use crate::live::{Live, Pass};
use crate::rule::{Hear, LookBack, LookUp, Note, Planned};
use crate::view::View;
use atomic_table::Seat;
use blink_batch::Answer;
use std::marker::Brand;

impl Live {
    /// Looks up any key. It returns the key's record pointer, or `None` if the key is absent, after the changes of all keys that
    /// the pass has seen by the end of the call. A pass never un-sees a change that it has seen, for all keys at once. The call
    /// takes no memory, waits for nobody, and returns.
    pub fn glance(&self, pass: &mut Pass, key: u64) -> Option<u64>
        requires its_own { IsPassOf self.now pass.old }
        ensures state { result ≡ after (pointer_of (opening_of self.now)) (seen_of pass.new) key }
        ensures knows { KnowsItsKeys self.now pass.new }
        ensures same { IsSameBesideSeen pass.old pass.new }
    {
        let Pass {
            seat,
            keys: _,
            rows: _,
            pages: _,
        } = pass;
        match self.search(seat, key, None) {
            Answer::Found(pointer) => Some(pointer),
            _ => None,
        }
    }

    /// Tells pass `to` what pass `from` has seen: after the call `to` has seen all that `from` has seen, for all keys. `from`
    /// stays as it was. Of the keys of `from`, `to` has then seen exactly the changes that `from` made. The call takes no
    /// memory, waits for nobody, and returns.
    pub fn tell(&self, from: &mut Pass, to: &mut Pass)
        requires from_its_own { IsPassOf self.now from.old }
        requires to_its_own { IsPassOf self.now to.old }
        ensures prefixes { OneIsPrefix (seen_of from.old) (seen_of to.old) }
        ensures told { IsPrefix (seen_of from.old) (seen_of to.new) }
        ensures knows { KnowsItsKeys self.now to.new }
        ensures own_before { SawPrefixOf from.old to.old × SawPrefixOf to.old from.old }
        ensures own_after { SawAllOf from.old to.new }
        ensures to { IsSameBesideSeen to.old to.new }
        ensures from { IsSamePass from.old from.new }
    {
        let Pass {
            seat: teller,
            keys: _,
            rows: _,
            pages: _,
        } = from;
        let Pass {
            seat,
            keys: _,
            rows: _,
            pages: _,
        } = to;
        self.pass_on(teller, seat);
        self.look_up(seat);
        self.pass_on(seat, teller);
        self.look_back(teller);
    }

    // Hands the seat `to` a note of what the seat `from` has seen.
    pub fn pass_on(&self, from: &mut Seat<u8, View>, to: &mut Seat<u8, View>)
        requires tables { (from.old.table_id ≡ self.now.table.shared.table_id)
            × (to.old.table_id ≡ self.now.table.shared.table_id) }
        ensures from { IsSameSeat from.old from.new }
        ensures to { HasSameNumber to.old to.new }
        ensures told { to.new.me ≡ (hears to.old.me.0 (note_of from.old.me.0), to.old.me.1) }
    {
        let note = self.table.shared.split_seat::<Note>(from);
        self.hear::<Brand>(to, note);
    }

    // The seat sees all changes so far.
    pub fn look_up(&self, seat: &mut Seat<u8, View>)
        requires seat { IsPassSeat self.now seat.old.table_id seat.old.me }
        ensures same { HasSameNumber seat.old seat.new }
        ensures up { LooksUp seat.old.me seat.new.me }
    {
        self.table.shared.load::<LookUp>(seat, 0);
    }

    // The seat sees no more changes. After the load it knows that its note shows of its own keys only changes that its own
    // operations made.
    pub fn look_back(&self, seat: &mut Seat<u8, View>)
        requires seat { IsPassSeat self.now seat.old.table_id seat.old.me }
        ensures same { HasSameNumber seat.old seat.new }
        ensures back { LooksBack seat.old.me seat.new.me }
    {
        self.table.shared.load::<LookBack>(seat, 0);
    }

    // The seat takes the note.
    fn hear<B: Planned>(&self, seat: &mut Seat<u8, View>, note: Seat<u8, View>)
        requires tables { (seat.old.table_id ≡ self.now.table.shared.table_id)
            × (note.table_id ≡ self.now.table.shared.table_id) }
        requires picked { B.plan ≡ plan_of self.now.table.shared.key }
        requires note { IsIdleIn Spent note.me }
        ensures same { HasSameNumber seat.old seat.new }
        ensures heard { seat.new.me ≡ (hears seat.old.me.0 note.me.0, seat.old.me.1) }
    {
        self.table.shared.join_seat::<Hear<B>>(seat, note);
    }
}
