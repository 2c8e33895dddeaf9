//! Renewing a growing map: all its sessions are gathered, and given back but for one of them, which copies the entries into the next map with
//! more room. Then they are gathered again, and a session of the next map is put into each slot.
ghost use Rattle.std.specs.Prelude.{◌≡◌, ◌<◌, IfErr, IfSome, IsErrOf, IsTrue, Err, Some};
ghost use Rattle.blink_index.specs.{map_of};
ghost use Rattle.blink_map.specs.Renewing.{AreNext, IsCopied, IsRefusal, IsRefusalOf};
ghost use Rattle.blink_map.specs.Sessions.{IsSessionOf, is_fixed, places_of};

use crate::copy::Begun;
use crate::error::GrowError;
use crate::gather::tell_all;
use crate::growing::{GrowingMap, Session};
use crate::prepare::Prepared;
use crate::slots::{Current, SlotView};
use crate::waiting::{GRACE, Patience};
use atomic_table::Seat;
use blink_index::Index;
use std::alloc::Global;
use std::hint;
use std::sync::atomic::Ordering;

/// Why the map is renewed.
#[derive(Clone, Copy)]
pub(crate) enum Reason {
    /// Somebody asks for it.
    Asked,
    /// The map of this number was found full.
    Full(u64),
    /// Many of its leaves may be empty.
    Worn,
}

// What is left of the map that was renewed: the last owner of it, and the index of its entries. It takes long to drop them.
pub(crate) type Left = (Current, Index);

impl GrowingMap {
    /// Renews the map: its entries are packed into another map, with new room for changes. Who calls it in good time, from a thread of
    /// his own, spares other threads the renewal, and not the pause: changes wait while the map is renewed. Searches wait only while the
    /// sessions are gathered, before the entries are copied and after, but for those of the session of the first place, by which they are
    /// copied.
    ///
    /// The call waits for nobody before it copies. It looks `looks` times for each session that is in a call, or held. Where `full` is the
    /// number of the map that was found full (`Held::number`), and the map has been renewed since, it does nothing. It takes the time of a
    /// copy of all entries. Once they are copied it looks a million times for each session that is in a
    /// search, and copies them once more, while all calls wait, if a change was made meanwhile.
    ///
    /// The call refuses with `Busy`, if a session was in a call, or held, at each look, or another thread was renewing the map at each
    /// look; with `TooLarge`, if the entries leave too few of the 1,048,575 page numbers; and with `OutOfMemory`, if memory was
    /// refused. Then the map goes on with the room that it has left. A map whose room is fixed is never renewed: the call refuses with
    /// `Full`, and with nothing else.
    pub fn try_renew(&self, alloc: Global, full: Option<u64>, looks: u32) -> Result<(), GrowError>
        ensures refused { IfErr result (IsRefusalOf self.now) }
        ensures fixed { IsTrue (is_fixed self.now) → IsErrOf result GrowError.Full }
    {
        self.try_renew_at(alloc, 0, full, looks)
    }

    /// Renews the map as `try_renew` does, by this session: the entries are copied by it, and not by that of the first place. So no search
    /// of another session waits for the copy. The session stays as it is.
    pub fn try_renew_by(
        &self,
        alloc: Global,
        session: &Session,
        full: Option<u64>,
        looks: u32,
    ) -> Result<(), GrowError>
        requires its_own { IsSessionOf self.now session.now }
        ensures refused { IfErr result (IsRefusalOf self.now) }
        ensures fixed { IsTrue (is_fixed self.now) → IsErrOf result GrowError.Full }
    {
        self.try_renew_at(alloc, session.slot, full, looks)
    }

    /// Renews the map as `try_renew` does, by the session of this place (`Places::resting`), or of the first, if there are fewer.
    pub fn try_renew_at(
        &self,
        alloc: Global,
        place: usize,
        full: Option<u64>,
        looks: u32,
    ) -> Result<(), GrowError>
        ensures refused { IfErr result (IsRefusalOf self.now) }
        ensures fixed { IsTrue (is_fixed self.now) → IsErrOf result GrowError.Full }
    {
        let copier = if place < self.table.slot_count() {
            place
        } else {
            0
        };
        let reason = match full {
            Some(number) => Reason::Full(number),
            None => Reason::Asked,
        };
        match self.renew_unless_busy(alloc, copier, reason, looks) {
            Some(outcome) => outcome,
            None if self.is_renewed_within(looks) => Ok(()),
            None => Err(GrowError::Busy),
        }
    }

    // Renews the map, unless it needn't be renewed any more, or its room is fixed. `None`, if another thread renews it.
    pub(crate) fn renew_unless_busy(
        &self,
        alloc: Global,
        copier: usize,
        reason: Reason,
        looks: u32,
    ) -> Option<Result<(), GrowError>>
        requires in_range { copier < places_of self.now }
        ensures refused { IfSome result (λ outcome. IfErr outcome (IsRefusalOf self.now)) }
        ensures fixed { IsTrue (is_fixed self.now) → result ≡ Some (Err GrowError.Full) }
    {
        if self.fixed {
            return Some(Err(GrowError::Full));
        }
        if self.renewing.swap(true, Ordering::SeqCst) {
            return None;
        }
        let patience = Patience { tries: 1, looks };
        Some(self.renew_alone(alloc, copier, reason, patience))
    }

    // Returns whether nobody renews the map at one of so many looks.
    fn is_renewed_within(&self, looks: u32) -> bool {
        for _ in 0..looks {
            if !self.renewing.load(Ordering::SeqCst) {
                return true;
            }
            hint::spin_loop();
        }
        false
    }

    // Renews the map, and lets the calls go on. What is left of the old map is dropped only then.
    fn renew_alone(
        &self,
        alloc: Global,
        copier: usize,
        reason: Reason,
        patience: Patience,
    ) -> Result<(), GrowError>
        requires in_range { copier < places_of self.now }
        ensures refused { IfErr result (IsRefusalOf self.now) }
    {
        for _ in 0..GRACE {
            hint::spin_loop();
        }
        self.gathering.store(true, Ordering::SeqCst);
        let outcome = self.renew_by(alloc, copier, reason, patience);
        self.gathering.store(false, Ordering::SeqCst);
        self.renewing.store(false, Ordering::SeqCst);
        match outcome {
            Ok(_left) => Ok(()),
            Err(refusal) => Err(refusal),
        }
    }

    // Renews the map, unless it was renewed since it was found full, or few of its leaves are empty.
    fn renew_by(
        &self,
        alloc: Global,
        copier: usize,
        reason: Reason,
        patience: Patience,
    ) -> Result<Option<Left>, GrowError>
        requires in_range { copier < places_of self.now }
        ensures refused { IfErr result IsRefusal }
    {
        let Begun {
            mut seat,
            mut lead,
            mut others,
        } = match self.begin(alloc, copier, patience) {
            Ok(begun) => begun,
            Err(refusal) => return Err(refusal),
        };
        let stays = match reason {
            Reason::Asked => false,
            Reason::Full(number) => number != lead.number,
            Reason::Worn => !self.is_worn(&lead.map),
        };
        if stays {
            self.give_all(&mut seat, copier, lead, others);
            return Ok(None);
        }
        match self.copy_among(alloc, &mut seat, copier, &mut lead, &mut others, patience) {
            Ok(prepared) => Ok(Some(self.go_over(&mut seat, copier, lead, others, prepared))),
            Err(refusal) => {
                self.give_all(&mut seat, copier, lead, others);
                Err(refusal)
            }
        }
    }

    // Makes the next map, which was opened over the index of the entries, the current one.
    pub(crate) fn go_over(
        &self,
        seat: &mut Seat<Option<Current>, SlotView>,
        copier: usize,
        mut lead: Current,
        others: Vec<Current>,
        prepared: Prepared,
    ) -> Left
        requires copied { IsCopied self.now seat.old copier lead others.items (map_of prepared.index) }
        requires next { AreNext (map_of prepared.index) (places_of self.now) copier
            prepared.next prepared.next_others.items }
    {
        let Prepared {
            index,
            next,
            next_others,
            counts,
        } = prepared;
        tell_all(&mut lead, others);
        let next = self.switch(seat, next);
        self.give_all(seat, copier, next, next_others);
        self.begin_count(counts);
        (lead, index)
    }
}
