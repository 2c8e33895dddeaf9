//! Telling another session what one has seen.
ghost use Rattle.std.specs.Prelude.{◌≡◌, ◌<◌, IfErr, OnOk};
ghost use mathlib.Core.List.{IsPrefix};
ghost use Rattle.std.specs.Arc.{arc_value};
ghost use Rattle.blink_map.specs.declared.slots.Known.{Known};
ghost use Rattle.blink_generation.specs.{IsSessionOf as IsSessionIn};
ghost use Rattle.blink_map.specs.declared.error.GrowError.TheVariants.{Busy};
ghost use Rattle.blink_map.specs.Own.{IsIdle, own_of};
ghost use Rattle.blink_map.specs.Renewing.{MaySeeMore};
ghost use Rattle.blink_map.specs.Sessions.{IsSameBesideSeen, IsSessionOf, seen_by};
ghost use Rattle.blink_map.specs.Telling.{HasBoth, HasTold, HasToldBetween, HasToldSeat, IsIdleWith, IsTold, KnowsAuthorsOf};

use crate::error::GrowError;
use crate::gather::hear;
use crate::growing::{GrowingMap, Session};
use crate::slots::{Compare, Current, PartWithFirst, PutTogether, SlotView};
use atomic_table::Seat;
use std::mem;

impl GrowingMap {
    /// Tells session `to` what session `from` has seen: after the call `to` has seen all that `from` had seen, whatever maps the changes
    /// were made in. The call looks for each of the two sessions `tries` times, at least once, and lets a renewal that has begun go first.
    /// It takes no memory, waits for nobody, and returns.
    ///
    /// The call refuses with `Busy`, if the map was renewed, or was about to be, at each look for one of them. Then `to` wasn't told. Both
    /// sessions are as they were, though they may have seen more.
    pub fn try_tell(
        &self,
        from: &mut Session,
        to: &mut Session,
        tries: u32,
    ) -> Result<(), GrowError>
        requires from_its_own { IsSessionOf self.now from.old }
        requires to_its_own { IsSessionOf self.now to.old }
        ensures told { OnOk result (IsPrefix (seen_by from.old) (seen_by to.new)) }
        ensures to { IsSameBesideSeen to.old to.new }
        ensures from { IsSameBesideSeen from.old from.new }
        ensures refused { IfErr result (λ refusal. refusal ≡ Busy) }
    {
        let Session { seat, slot } = from;
        let Session {
            seat: other,
            slot: other_slot,
        } = to;
        let theirs = mem::replace(other, self.enter());
        let (theirs, told) = self.tell_seat(seat, *slot, theirs, *other_slot, tries);
        *other = theirs;
        if told { Ok(()) } else { Err(GrowError::Busy) }
    }

    // A session's seat takes another session too, tells it what its own has seen, and gives it a seat of its own again. Returns whether it has
    // told it.
    fn tell_seat(
        &self,
        seat: &mut Seat<Option<Current>, SlotView>,
        from: usize,
        other: Seat<Option<Current>, SlotView>,
        to: usize,
        tries: u32,
    ) -> (Seat<Option<Current>, SlotView>, bool)
        requires its_own { seat.old.table_id ≡ self.now.table.shared.table_id }
        requires other_its_own { other.table_id ≡ self.now.table.shared.table_id }
        requires from { from < self.now.table.shared.table_id.slots }
        requires to { to < self.now.table.shared.table_id.slots }
        requires some_slot { 0 < seat.old.me.0.slots }
        requires idle { IsIdle from seat.old.me }
        requires other_idle { IsIdle to other.me }
        requires authors { KnowsAuthorsOf seat.old.me.0.slots from (own_of seat.old.me.0) }
        requires other_authors { KnowsAuthorsOf seat.old.me.0.slots to (own_of other.me.0) }
        ensures same { seat.new.table_id ≡ self.now.table.shared.table_id }
        ensures told_same { result.0.table_id ≡ self.now.table.shared.table_id }
        ensures told { HasToldSeat from to result.1 seat.old.me other.me seat.new.me result.0.me }
    {
        self.table.shared.join_seat::<PutTogether>(seat, other);
        self.table.shared.load::<Compare>(seat, 0);
        let told = self.tell_other(seat, from, to, tries);
        (self.table.shared.split_seat::<PartWithFirst>(seat), told)
    }

    // The session of the one slot tells that of the other, by a seat that has both. Returns whether it has told it.
    fn tell_other(
        &self,
        seat: &mut Seat<Option<Current>, SlotView>,
        from: usize,
        to: usize,
        tries: u32,
    ) -> bool
        requires its_own { seat.old.table_id ≡ self.now.table.shared.table_id }
        requires from { from < seat.old.table_id.slots }
        requires to { to < seat.old.table_id.slots }
        requires some_slot { 0 < seat.old.me.0.slots }
        requires both { (own : Known) × (theirs : Known) × HasBoth from to own theirs seat.old.me }
        ensures same { seat.new.table_id ≡ seat.old.table_id }
        ensures told { (own theirs : Known) → HasBoth from to own theirs seat.old.me
            → HasTold from to result own theirs seat.old.me seat.new.me }
    {
        if from < to {
            self.tell_between(seat, from, to, true, tries)
        } else {
            self.tell_between(seat, to, from, false, tries)
        }
    }

    // Takes the sessions of two slots, the lower one first, as a renewal does, so that neither waits for what the other has. Then the one
    // tells the other. Returns whether it has told it. If not, one of them wasn't in its slot at any look.
    fn tell_between(
        &self,
        seat: &mut Seat<Option<Current>, SlotView>,
        lower: usize,
        upper: usize,
        upwards: bool,
        tries: u32,
    ) -> bool
        requires its_own { seat.old.table_id ≡ self.now.table.shared.table_id }
        requires lower { lower < seat.old.table_id.slots }
        requires upper { upper < seat.old.table_id.slots }
        requires some_slot { 0 < seat.old.me.0.slots }
        requires idle { (low : Known) × (high : Known)
            × IsIdleWith lower upper low high seat.old.me }
        ensures same { seat.new.table_id ≡ seat.old.table_id }
        ensures told { (low high : Known) → IsIdleWith lower upper low high seat.old.me
            → HasToldBetween lower upper upwards result low high seat.old.me seat.new.me }
    {
        let Some(low) = self.take_unless_gathering(seat, lower, tries) else {
            return false;
        };
        let Some(high) = self.take_unless_gathering(seat, upper, tries) else {
            self.give(seat, lower, low);
            return false;
        };
        let (low, high) = tell_one(low, high, upwards);
        self.give(seat, upper, high);
        self.give(seat, lower, low);
        true
    }
}

// The lower session tells the upper one, or the other way round.
fn tell_one(mut low: Current, mut high: Current, upwards: bool) -> (Current, Current)
    requires low { IsSessionIn (arc_value low.map) low.session }
    requires high { IsSessionIn (arc_value low.map) high.session }
    requires same_map { arc_value high.map ≡ arc_value low.map }
    ensures low { MaySeeMore low result.0 }
    ensures high { MaySeeMore high result.1 }
    ensures told { IsTold upwards low high result.0 result.1 }
{
    if upwards {
        let low = hear(&mut high, low);
        (low, high)
    } else {
        let high = hear(&mut low, high);
        (low, high)
    }
}
