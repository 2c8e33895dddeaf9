//! Joining a growing map, and leaving it.
ghost use Rattle.std.specs.Prelude.{◌≡◌, ◌<◌, Option, [], ◌∷◌, Some, All, IfOk, IfSome, IsTrue, replicate};
ghost use Rattle.blink_map.specs.declared.growing.Session.{Session};
ghost use Rattle.blink_map.specs.Joining.{map_at};
ghost use Rattle.blink_map.specs.Sessions.{IsSessionOf, opening_of};

use crate::growing::{GrowingMap, Session};
use crate::places::{
    Belongs, GiveSlot, Home, Places, RuleOfPlaces, TakeSession, TakeSpace, Visit, Visitor,
};
use atomic_table::{Seat, Table};
use std::alloc::{AllocError, Global};
use std::marker::Brand;
use std::snapshot::Snapshot;

// The word of a place that has space for a session, and of one at which a session rests.
const SPACE: u64 = 0;

const RESTS: u64 = 1;

// The word of a place while somebody is at its slot.
const AT_SLOT: u64 = 2;

impl Places {
    /// Makes the places of a map, at which no session rests yet. The call refuses if memory was refused.
    pub fn new(alloc: Global, map: &GrowingMap) -> Result<Places, AllocError>
        ensures { IfOk result (λ places. map_at places ≡ map.now) }
    {
        let home = Home {
            map: Snapshot::of(map),
        };
        let count = map.table.slot_count();
        let words = zeros(alloc, count)?;
        let (table, _first) = Table::<Option<Session>, Visitor, Home, RuleOfPlaces, Global>::vacant(
            alloc, &words, count, &home,
        )?;
        Ok(Places { table })
    }

    /// Takes a session that rests, and returns it; `None`, if it found no session at any place. It adds no change at the session's place.
    /// Any thread joins at any time. The call takes no memory and waits for nobody.
    pub fn join(&self) -> Option<Session>
        ensures joined { IfSome result (IsSessionOf (map_at self.now)) }
    {
        let mut seat = self.visit();
        for place in 0..self.table.slot_count() {
            if self.take_session::<Brand>(&mut seat, place) {
                let Some(session) = self.table.shared.exchange(&mut seat, place, None) else {
                    unreachable!()
                };
                self.table.shared.store::<GiveSlot>(&mut seat, place, SPACE);
                return Some(session);
            }
        }
        None
    }

    /// Lets a session rest at its place, for any thread to take. The call takes no memory and waits for nobody.
    pub fn leave(&self, session: Session)
        requires its_own { IsSessionOf (map_at self.now) session }
    {
        let place = session.slot;
        let mut seat = self.visit();
        // The slot is empty, since a map has one session for each place.
        if self.take_space(&mut seat, place) {
            self.table.shared.exchange(&mut seat, place, Some(session));
            self.table.shared.store::<GiveSlot>(&mut seat, place, RESTS);
        }
    }

    /// Lets all these sessions rest at their places. The vector is empty then, and keeps its memory.
    pub fn leave_all(&self, sessions: &mut Vec<Session>)
        requires its_own { All (IsSessionOf (map_at self.now)) sessions.old.items }
        ensures none { sessions.new.items ≡ [] }
    {
        while let Some(session) = sessions.pop() {
            self.leave(session);
        }
    }

    /// Takes the sessions that rest, and adds them to the vector, as many as it has memory for.
    pub fn join_all(&self, sessions: &mut Vec<Session>)
        requires its_own { All (IsSessionOf (map_at self.now)) sessions.old.items }
        ensures its_own { All (IsSessionOf (map_at self.now)) sessions.new.items }
    {
        while sessions.len() < sessions.capacity() {
            let Some(session) = self.join() else {
                return;
            };
            sessions.push_reserved(session);
        }
    }

    /// Returns a place at which a session rests just now; `None`, if it found none. Any thread may take the session meanwhile.
    pub fn resting(&self) -> Option<usize> {
        for place in 0..self.table.slot_count() {
            if self.rests(place) {
                return Some(place);
            }
        }
        None
    }

    // Whether a session rests at the place just now.
    fn rests(&self, place: usize) -> bool
        requires in_range { place < self.now.table.shared.table_id.slots }
    {
        let (word, _seat) = self.table.shared.load_new_seat::<Visit>(place);
        word == RESTS
    }

    // A seat of the places that has no slot.
    fn visit(&self) -> Seat<Option<Session>, Visitor>
        ensures table { result.table_id ≡ self.now.table.shared.table_id }
        ensures none { result.me.1 ≡ [] }
    {
        let (_, seat) = self.table.shared.load_new_seat::<Visit>(0);
        seat
    }

    // Tries to take the session that rests at the place, and returns whether the seat has it now.
    fn take_session<B: Belongs>(
        &self,
        seat: &mut Seat<Option<Session>, Visitor>,
        place: usize,
    ) -> bool
        requires table { seat.old.table_id ≡ self.now.table.shared.table_id }
        requires none { seat.old.me.1 ≡ [] }
        requires in_range { place < self.now.table.shared.table_id.slots }
        requires picked { (B.table ≡ (map_at self.now).table.shared.table_id)
            × (B.first ≡ opening_of (map_at self.now)) }
        ensures table { seat.new.table_id ≡ self.now.table.shared.table_id }
        ensures got { IsTrue result → (session : Session) × IsSessionOf (map_at self.now) session
            × (seat.new.me.1 ≡ (place, Some session) ∷ []) }
        ensures lost { ¬ IsTrue result → seat.new.me.1 ≡ [] }
        ensures in_range { place < self.now.table.shared.table_id.slots }
    {
        self.table
            .shared
            .compare_exchange::<TakeSession<B>>(seat, place, RESTS, AT_SLOT)
            == RESTS
    }

    // Tries to take the slot of the place for a session, and returns whether the seat has it now.
    fn take_space(&self, seat: &mut Seat<Option<Session>, Visitor>, place: usize) -> bool
        requires table { seat.old.table_id ≡ self.now.table.shared.table_id }
        requires none { seat.old.me.1 ≡ [] }
        requires in_range { place < self.now.table.shared.table_id.slots }
        ensures table { seat.new.table_id ≡ self.now.table.shared.table_id }
        ensures got { IsTrue result
            → (left : Option Session) × (seat.new.me.1 ≡ (place, left) ∷ []) }
        ensures in_range { place < self.now.table.shared.table_id.slots }
    {
        self.table
            .shared
            .compare_exchange::<TakeSpace>(seat, place, SPACE, AT_SLOT)
            == SPACE
    }
}

// So many words of places with space.
fn zeros(alloc: Global, count: usize) -> Result<Vec<u64>, AllocError>
    ensures { IfOk result (λ words. words.items ≡ replicate count 0) }
{
    vec![in alloc; SPACE; count]
}
