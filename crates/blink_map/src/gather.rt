//! How a renewal takes the sessions of all slots, and how it gives the slots back.
ghost use Rattle.std.specs.Prelude.{◌≡◌, ◌≤◌, ◌-◌, [], suc, IsTrue, length, vec_capacity};
ghost use mathlib.Core.List.{IsPrefix};
ghost use Rattle.std.specs.Arc.{arc_value};
ghost use Rattle.blink_generation.specs.{IsSessionOf, seen_by};
ghost use Rattle.blink_map.specs.Laid.{slot_behind};
ghost use Rattle.blink_map.specs.Sessions.{places_of};
ghost use Rattle.blink_map.specs.Renewing.{AreOfOneMap, HasHeardAll, HasSeenOwn, HaveSeenOwn, IsRenewing, MaySeeMore};

use crate::growing::GrowingMap;
use crate::slots::{Current, SlotView};
use crate::waiting::Patience;
use atomic_table::Seat;

impl GrowingMap {
    // Takes the sessions of all slots but the copier's, each as soon as no call has it, and tells the copier's session what they have
    // seen. Returns whether it has them all: a session that no look finds in its slot is held up in a call.
    pub(crate) fn gather(
        &self,
        seat: &mut Seat<Option<Current>, SlotView>,
        copier: usize,
        lead: &mut Current,
        others: &mut Vec<Current>,
        patience: Patience,
    ) -> bool
        requires renewing { IsRenewing self.now seat.old copier lead.old others.old.items }
        requires alone { others.old.items ≡ [] }
        requires room { places_of self.now ≤ suc (vec_capacity others.old) }
        ensures renewing { IsRenewing self.now seat.new copier lead.new others.new.items }
        ensures heard { HasHeardAll lead.new others.new.items }
        ensures more { MaySeeMore lead.old lead.new }
        ensures all { IsTrue result → suc (length others.new.items) ≡ places_of self.now }
        ensures room { places_of self.now ≤ suc (vec_capacity others.new) }
    {
        for level in 1..self.table.slot_count() {
            let slot = slot_at(copier, level);
            let Some(held) = self.take_patiently(seat, slot, patience) else {
                return false;
            };
            let told = hear(lead, held);
            others.push_reserved(told);
        }
        true
    }

    // Gives the slots back, with these sessions in them.
    pub(crate) fn give_all(
        &self,
        seat: &mut Seat<Option<Current>, SlotView>,
        copier: usize,
        lead: Current,
        mut others: Vec<Current>,
    )
        requires renewing { IsRenewing self.now seat.old copier lead others.items }
    {
        self.give_others(seat, copier, &lead, &mut others);
        self.give(seat, copier, lead);
    }

    // Gives the slots back but the copier's, whose session this is.
    pub(crate) fn give_others(
        &self,
        seat: &mut Seat<Option<Current>, SlotView>,
        copier: usize,
        _lead: &Current,
        others: &mut Vec<Current>,
    )
        requires renewing { IsRenewing self.now seat.old copier _lead.now others.old.items }
        ensures renewing { IsRenewing self.now seat.new copier _lead.now [] }
        ensures none { others.new.items ≡ [] }
        ensures room { vec_capacity others.new ≡ vec_capacity others.old }
    {
        while let Some(held) = others.pop() {
            let slot = slot_at(copier, others.len() + 1);
            self.give(seat, slot, held);
        }
    }
}

// The slot that a renewal takes after so many others, at least the copier's: it takes that first, and then the others in their order.
pub(crate) fn slot_at(copier: usize, level: usize) -> usize
    requires behind { 1 ≤ level }
    ensures { result ≡ slot_behind copier (level - 1) }
{
    if level <= copier { level - 1 } else { level }
}

// Tells the session what another one of its map has seen, and returns that one.
pub(crate) fn hear(lead: &mut Current, mut held: Current) -> Current
    requires its_own { IsSessionOf (arc_value lead.old.map) lead.old.session }
    requires one_map { IsSessionOf (arc_value lead.old.map) held.session }
    ensures heard { IsPrefix (seen_by result.session) (seen_by lead.new.session) }
    ensures lead { MaySeeMore lead.old lead.new }
    ensures held { MaySeeMore held result }
{
    let Current {
        map,
        session,
        number: _,
        changes: _,
    } = lead;
    map.tell(&mut held.session, session);
    held
}

// Tells the other sessions what the first one has seen. So it is known that this has all changes that they have made, and no others at
// their places.
pub(crate) fn tell_all(lead: &mut Current, mut others: Vec<Current>)
    requires its_own { IsSessionOf (arc_value lead.old.map) lead.old.session }
    requires one_map { AreOfOneMap lead.old others.items }
    requires heard { HasHeardAll lead.old others.items }
    ensures { HaveSeenOwn lead.old others.items }
{
    while let Some(held) = others.pop() {
        tell(lead, held);
    }
}

// Tells one of them.
fn tell(lead: &mut Current, mut held: Current)
    requires its_own { IsSessionOf (arc_value lead.old.map) lead.old.session }
    requires one_map { IsSessionOf (arc_value lead.old.map) held.session }
    requires heard { IsPrefix (seen_by held.session) (seen_by lead.old.session) }
    ensures seen { seen_by lead.new.session ≡ seen_by lead.old.session }
    ensures its_own { IsSessionOf (arc_value lead.new.map) lead.new.session }
    ensures same_map { arc_value lead.new.map ≡ arc_value lead.old.map }
    ensures own { HasSeenOwn lead.old held }
{
    let Current {
        map,
        session,
        number: _,
        changes: _,
    } = lead;
    map.tell(session, &mut held.session);
}
