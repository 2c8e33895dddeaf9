//! How seats take slots and give them back.
ghost use Rattle.std.specs.Prelude.{◌≡◌, ◌<◌, List, [], Some, None, IfSome, IfNone, IsTrue, IsFalse};
ghost use Rattle.std.specs.Arc.{arc_value};
ghost use Rattle.atomic_table.specs.Table.{rest};
ghost use Rattle.blink_live.specs.declared.view.Change.{Change};
ghost use Rattle.blink_map.specs.Rule.{SlotSeat, generation_of, known_of};
ghost use Rattle.blink_map.specs.Sessions.{opening_of, places_of};
ghost use Rattle.blink_map.specs.Steps.{AreAllTaken, CanGive, Follows, Switched, Taken, given, has_given, past_of};
ghost use Rattle.blink_map.specs.Taking.{CanGiveBack, HasTakenSlot};

use crate::growing::GrowingMap;
use crate::slots::{Current, Enter, Give, SLOT_WORDS, SlotView, Switch, Take};
use crate::waiting::Patience;
use atomic_table::Seat;
use std::hint;
use std::sync::atomic::{AtomicBool, Ordering};

// The word of a slot in which a session lies, and of one that is taken.
const FREE: u64 = 0;

const TAKEN: u64 = 1;

impl GrowingMap {
    // A seat that has no session.
    pub(crate) fn enter(&self) -> Seat<Option<Current>, SlotView>
        ensures its_own { result.table_id ≡ self.now.table.shared.table_id }
        ensures first { result.me.0.first ≡ opening_of self.now }
        ensures slots { result.me.0.slots ≡ places_of self.now }
        ensures none_taken { (result.me.0.taken ≡ []) × (result.me.0.now ≡ None) }
        ensures no_account { result.me.0.accounts ≡ [] }
        ensures none_out { result.me.1 ≡ [] }
    {
        let (_, seat) = self.table.shared.load_new_seat::<Enter>(0);
        seat
    }

    // Takes a slot, if its session lies there, and leaves the session in it. Returns whether it has taken it.
    pub(crate) fn try_take_slot(
        &self,
        seat: &mut Seat<Option<Current>, SlotView>,
        slot: usize,
    ) -> bool
        requires its_own { seat.old.table_id ≡ self.now.table.shared.table_id }
        requires in_range { slot < seat.old.table_id.slots }
        requires some_slot { 0 < seat.old.me.0.slots }
        ensures same { seat.new.table_id ≡ seat.old.table_id }
        ensures taken { IsTrue result → HasTakenSlot slot seat.old.me seat.new.me }
        ensures lost { IsFalse result → seat.new.me ≡ seat.old.me }
    {
        let found = self
            .table
            .shared
            .compare_exchange::<Take>(seat, SLOT_WORDS * slot, FREE, TAKEN);
        found == FREE
    }

    // Takes a slot, and leaves the session in it. It looks `tries` times, at least once, and lets a renewal go first that has set this word: all
    // of it, or its gathering. Returns whether it has taken the slot.
    pub(crate) fn take_slot_unless(
        &self,
        renewal: &AtomicBool,
        seat: &mut Seat<Option<Current>, SlotView>,
        slot: usize,
        tries: u32,
    ) -> bool
        requires its_own { seat.old.table_id ≡ self.now.table.shared.table_id }
        requires in_range { slot < seat.old.table_id.slots }
        requires some_slot { 0 < seat.old.me.0.slots }
        ensures same { seat.new.table_id ≡ seat.old.table_id }
        ensures taken { IsTrue result → HasTakenSlot slot seat.old.me seat.new.me }
        ensures lost { IsFalse result → seat.new.me ≡ seat.old.me }
    {
        for _ in 0..tries.max(1) {
            if !renewal.load(Ordering::SeqCst) && self.try_take_slot(seat, slot) {
                return true;
            }
            hint::spin_loop();
        }
        false
    }

    // Takes the session out of a slot that the seat has taken.
    pub(crate) fn take_out(
        &self,
        seat: &mut Seat<Option<Current>, SlotView>,
        slot: usize,
    ) -> Current
        requires its_own { seat.old.table_id ≡ self.now.table.shared.table_id }
        requires taken { (me : SlotSeat) × HasTakenSlot slot me seat.old.me }
        ensures same { seat.new.table_id ≡ seat.old.table_id }
        ensures taken { (me : SlotSeat) → HasTakenSlot slot me seat.old.me
            → Taken slot result None me seat.new.me }
    {
        match self.table.shared.exchange(seat, slot, None) {
            Some(held) => held,
            None => unreachable!(),
        }
    }

    // Takes the session out of a slot, if it lies there.
    pub(crate) fn try_take(
        &self,
        seat: &mut Seat<Option<Current>, SlotView>,
        slot: usize,
    ) -> Option<Current>
        requires its_own { seat.old.table_id ≡ self.now.table.shared.table_id }
        requires in_range { slot < seat.old.table_id.slots }
        requires some_slot { 0 < seat.old.me.0.slots }
        ensures same { seat.new.table_id ≡ seat.old.table_id }
        ensures taken { IfSome result (λ held. Taken slot held None seat.old.me seat.new.me) }
        ensures lost { IfNone result (seat.new.me ≡ seat.old.me) }
    {
        if self.try_take_slot(seat, slot) {
            Some(self.take_out(seat, slot))
        } else {
            None
        }
    }

    // Takes the session out of a slot; `None`, if it wasn't there at so many looks, at least one. It lets a renewal that gathers the sessions
    // go first.
    pub(crate) fn take_unless_gathering(
        &self,
        seat: &mut Seat<Option<Current>, SlotView>,
        slot: usize,
        tries: u32,
    ) -> Option<Current>
        requires its_own { seat.old.table_id ≡ self.now.table.shared.table_id }
        requires in_range { slot < seat.old.table_id.slots }
        requires some_slot { 0 < seat.old.me.0.slots }
        ensures same { seat.new.table_id ≡ seat.old.table_id }
        ensures taken { IfSome result (λ held. Taken slot held None seat.old.me seat.new.me) }
        ensures lost { IfNone result (seat.new.me ≡ seat.old.me) }
    {
        if self.take_slot_unless(&self.gathering, seat, slot, tries) {
            Some(self.take_out(seat, slot))
        } else {
            None
        }
    }

    // Takes the session out of a slot; `None`, if it wasn't there so often.
    pub(crate) fn take_within(
        &self,
        seat: &mut Seat<Option<Current>, SlotView>,
        slot: usize,
        tries: u32,
    ) -> Option<Current>
        requires its_own { seat.old.table_id ≡ self.now.table.shared.table_id }
        requires in_range { slot < seat.old.table_id.slots }
        requires some_slot { 0 < seat.old.me.0.slots }
        ensures same { seat.new.table_id ≡ seat.old.table_id }
        ensures taken { IfSome result (λ held. Taken slot held None seat.old.me seat.new.me) }
        ensures lost { IfNone result (seat.new.me ≡ seat.old.me) }
    {
        for _ in 0..tries {
            if let Some(held) = self.try_take(seat, slot) {
                return Some(held);
            }
            hint::spin_loop();
        }
        None
    }

    // Takes the session out of a slot; `None`, if it wasn't there in so many tries.
    pub(crate) fn take_patiently(
        &self,
        seat: &mut Seat<Option<Current>, SlotView>,
        slot: usize,
        patience: Patience,
    ) -> Option<Current>
        requires its_own { seat.old.table_id ≡ self.now.table.shared.table_id }
        requires in_range { slot < seat.old.table_id.slots }
        requires some_slot { 0 < seat.old.me.0.slots }
        ensures same { seat.new.table_id ≡ seat.old.table_id }
        ensures taken { IfSome result (λ held. Taken slot held None seat.old.me seat.new.me) }
        ensures lost { IfNone result (seat.new.me ≡ seat.old.me) }
    {
        for _ in 1..patience.tries {
            if let Some(held) = self.take_within(seat, slot, patience.looks) {
                return Some(held);
            }
            hint::spin_loop();
        }
        self.take_within(seat, slot, patience.looks)
    }

    // Lays a session into the slot that the seat took last, and gives the slot back.
    pub(crate) fn give(
        &self,
        seat: &mut Seat<Option<Current>, SlotView>,
        slot: usize,
        held: Current,
    )
        requires its_own { seat.old.table_id ≡ self.now.table.shared.table_id }
        requires in_range { slot < seat.old.table_id.slots }
        requires can { CanGive slot seat.old.me held }
        ensures same { seat.new.table_id ≡ seat.old.table_id }
        ensures given { seat.new.me ≡ (
          has_given seat.old.me.0 slot (known_of (past_of seat.old.me.0.now) slot held),
          rest seat.old.me.1,
        ) }
    {
        match self.table.shared.exchange(seat, slot, Some(held)) {
            Some(_) => unreachable!(),
            None => {}
        }
        self.give_back(seat, slot);
    }

    // Gives back the slot that the seat took last, with the session that lies in it.
    pub(crate) fn give_back(&self, seat: &mut Seat<Option<Current>, SlotView>, slot: usize)
        requires its_own { seat.old.table_id ≡ self.now.table.shared.table_id }
        requires in_range { slot < seat.old.table_id.slots }
        requires can { CanGiveBack slot seat.old.me }
        ensures same { seat.new.table_id ≡ seat.old.table_id }
        ensures back { seat.new.me ≡ (given seat.old.me.0 seat.old.me.1, rest seat.old.me.1) }
    {
        self.table
            .shared
            .store::<Give>(seat, SLOT_WORDS * slot, FREE);
    }

    // Another map becomes the current one, of which this is a session.
    pub(crate) fn switch(
        &self,
        seat: &mut Seat<Option<Current>, SlotView>,
        held: Current,
    ) -> Current
        requires its_own { seat.old.table_id ≡ self.now.table.shared.table_id }
        requires some_slot { 0 < seat.old.me.0.slots }
        requires all { AreAllTaken (places_of self.now) seat.old.me.0.taken }
        requires follows { (past : List Change)
            × Follows seat.old.me.0 (generation_of (arc_value held.map) past) }
        ensures same { seat.new.table_id ≡ seat.old.table_id }
        ensures held { result ≡ held }
        ensures switched { Switched (arc_value held.map) seat.old.me seat.new.me }
    {
        let said = Some(held);
        self.table
            .shared
            .compare_exchange_with::<Switch>(seat, 0, TAKEN, TAKEN, &said);
        match said {
            Some(held) => held,
            None => unreachable!(),
        }
    }
}
