//! How a renewal copies the entries while searches go on: it counts the changes before and after.
ghost use Rattle.std.specs.Prelude.{◌≡◌, ◌≤◌, ◌<◌, [], suc, IfErr, IfOk, IfSome, OnSome, vec_capacity};
ghost use Rattle.std.specs.Arc.{arc_value};
ghost use Rattle.blink_index.specs.{map_of};
ghost use Rattle.blink_generation.specs.{IsSessionOf};
ghost use Rattle.blink_map.specs.Renewing.{AreEntriesSeen, AreNext, IsCopied, IsNoted, IsRefusal, IsRenewing, MaySeeMore};
ghost use Rattle.blink_map.specs.Sessions.{places_of};

use crate::counts::{Noted, count_all, count_busy};
use crate::error::GrowError;
use crate::growing::GrowingMap;
use crate::next::{index_of, open_next};
use crate::room::parts_for;
use crate::slots::{Current, SlotView};
use crate::waiting::{Patience, RENEWAL};
use crate::worn::{FirstCounts, first_counts};
use atomic_table::Seat;
use blink_index::Index;
use std::alloc::Global;
use std::sync::atomic::Ordering;

// An index of the entries, and sessions of a map that was opened over it: the one of the copier's place, and the others. The map begins to
// count so.
#[derive(Drop)]
pub(crate) struct Prepared {
    pub(crate) index: Index,
    pub(crate) next: Current,
    pub(crate) next_others: Vec<Current>,
    pub(crate) counts: FirstCounts,
}

impl GrowingMap {
    // Gathers the sessions, gives them back but for the copier's, copies the entries by that, and gathers the others again. Searches go on
    // while the entries are copied.
    pub(crate) fn copy_among(
        &self,
        alloc: Global,
        seat: &mut Seat<Option<Current>, SlotView>,
        copier: usize,
        lead: &mut Current,
        others: &mut Vec<Current>,
        patience: Patience,
    ) -> Result<Prepared, GrowError>
        requires renewing { IsRenewing self.now seat.old copier lead.old others.old.items }
        requires alone { others.old.items ≡ [] }
        requires room { places_of self.now ≤ suc (vec_capacity others.old) }
        ensures renewing { IsRenewing self.now seat.new copier lead.new others.new.items }
        ensures copied { IfOk result (λ prepared.
            IsCopied self.now seat.new copier lead.new others.new.items (map_of prepared.index)) }
        ensures next { IfOk result (λ prepared. AreNext (map_of prepared.index)
            (places_of self.now) copier prepared.next prepared.next_others.items) }
        ensures refused { IfErr result IsRefusal }
    {
        let Some(noted) = self.note(seat, copier, lead, others, patience) else {
            return Err(GrowError::Busy);
        };
        self.gathering.store(false, Ordering::SeqCst);
        let outcome = self.prepare(alloc, copier, lead, noted.busy);
        self.gathering.store(true, Ordering::SeqCst);
        let changes = noted.changes;
        match outcome {
            Ok(prepared) => self.gather_again(alloc, seat, copier, lead, others, prepared, changes),
            Err(refusal) => Err(refusal),
        }
    }

    // Gathers the other sessions, counts their changes, and gives them back. `None`, if a session is held up in a call: then those that it
    // has are not given back.
    pub(crate) fn note(
        &self,
        seat: &mut Seat<Option<Current>, SlotView>,
        copier: usize,
        lead: &mut Current,
        others: &mut Vec<Current>,
        patience: Patience,
    ) -> Option<Noted>
        requires renewing { IsRenewing self.now seat.old copier lead.old others.old.items }
        requires alone { others.old.items ≡ [] }
        requires room { places_of self.now ≤ suc (vec_capacity others.old) }
        ensures renewing { IsRenewing self.now seat.new copier lead.new others.new.items }
        ensures alone { OnSome result (others.new.items ≡ []) }
        ensures room { places_of self.now ≤ suc (vec_capacity others.new) }
        ensures noted { IfSome result
            (λ noted. IsNoted (places_of self.now) copier lead.new noted.changes) }
    {
        if !self.gather(seat, copier, lead, others, patience) {
            return None;
        }
        let changes = count_all(others);
        let busy = count_busy(others);
        self.give_others(seat, copier, lead, others);
        Some(Noted { changes, busy })
    }

    // Makes an index of the entries by this session, and opens the next map over it. So many of the other sessions have made changes.
    pub(crate) fn prepare(
        &self,
        alloc: Global,
        copier: usize,
        lead: &mut Current,
        busy: u32,
    ) -> Result<Prepared, GrowError>
        requires in_range { copier < places_of self.now }
        requires its_own { IsSessionOf (arc_value lead.old.map) lead.old.session }
        ensures more { MaySeeMore lead.old lead.new }
        ensures entries { IfOk result (λ prepared. AreEntriesSeen lead.new (map_of prepared.index)) }
        ensures next { IfOk result (λ prepared. AreNext (map_of prepared.index)
            (places_of self.now) copier prepared.next prepared.next_others.items) }
        ensures refused { IfErr result IsRefusal }
    {
        let index = match index_of(alloc, self.fan, lead) {
            Ok(index) => index,
            Err(refusal) => return Err(refusal),
        };
        let slots = self.table.slot_count() as u32;
        let parts = parts_for(busy, slots);
        let number = lead.number.wrapping_add(1);
        match open_next(alloc, &index, slots, parts, copier, number) {
            Ok((next, next_others)) => Ok(Prepared {
                counts: first_counts(&index, parts),
                index,
                next,
                next_others,
            }),
            Err(refusal) => Err(refusal),
        }
    }

    // Gathers the other sessions again, when the entries are copied. If one of them has made a change since they were noted, the entries are
    // copied again.
    pub(crate) fn gather_again(
        &self,
        alloc: Global,
        seat: &mut Seat<Option<Current>, SlotView>,
        copier: usize,
        lead: &mut Current,
        others: &mut Vec<Current>,
        prepared: Prepared,
        noted: u64,
    ) -> Result<Prepared, GrowError>
        requires renewing { IsRenewing self.now seat.old copier lead.old others.old.items }
        requires alone { others.old.items ≡ [] }
        requires room { places_of self.now ≤ suc (vec_capacity others.old) }
        requires noted { IsNoted (places_of self.now) copier lead.old noted }
        requires entries { AreEntriesSeen lead.old (map_of prepared.index) }
        requires next { AreNext (map_of prepared.index) (places_of self.now) copier
            prepared.next prepared.next_others.items }
        ensures renewing { IsRenewing self.now seat.new copier lead.new others.new.items }
        ensures copied { IfOk result (λ prepared.
            IsCopied self.now seat.new copier lead.new others.new.items (map_of prepared.index)) }
        ensures next { IfOk result (λ prepared. AreNext (map_of prepared.index)
            (places_of self.now) copier prepared.next prepared.next_others.items) }
        ensures refused { IfErr result IsRefusal }
    {
        if !self.gather(seat, copier, lead, others, RENEWAL) {
            return Err(GrowError::Busy);
        }
        if noted < u64::MAX && count_all(others) == noted {
            return Ok(prepared);
        }
        drop(prepared);
        self.prepare(alloc, copier, lead, count_busy(others))
    }
}
