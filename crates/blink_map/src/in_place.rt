//! Reads and changes by a session in its slot, where it stays: a seat has taken the slot, and gives it back.
ghost use Rattle.std.specs.Prelude.{◌≡◌, ◌≤◌, ◌<◌, IfOk, IfSome, IsNone, drop, length, take};
ghost use Rattle.blink_batch.specs.{FitsWords, pointer_of};
ghost use Rattle.blink_live.specs.{IsReport, IsReportBack, IsSnapshot, StoppedFull, after, start_of, stop_of};
ghost use Rattle.blink_machine.specs.{IsUpdate};
ghost use Rattle.blink_map.specs.Holding.{AnswersFrom};
ghost use Rattle.blink_map.specs.Own.{own_of};
ghost use Rattle.blink_map.specs.Rule.{IsContinued};
ghost use Rattle.blink_map.specs.Sessions.{opening_of};
ghost use Rattle.blink_map.specs.Taking.{HasOwnSlot, IsGivenBack, IsIdleAgain};

use crate::growing::GrowingMap;
use crate::slots::{Current, SlotView};
use atomic_table::Seat;
use blink_batch::{Answer, Entry, Op};
use blink_live::Scanned;
use std::alloc::{AllocError, Global};

impl GrowingMap {
    // Looks up a key by the session in its slot, and gives the slot back.
    pub(crate) fn find_in_place(
        &self,
        seat: &mut Seat<Option<Current>, SlotView>,
        slot: usize,
        key: u64,
    ) -> Option<u64>
        requires its_own { seat.old.table_id ≡ self.now.table.shared.table_id }
        requires in_range { slot < seat.old.table_id.slots }
        requires same_first { seat.old.me.0.first ≡ opening_of self.now }
        requires taken { HasOwnSlot slot seat.old.me }
        ensures same { seat.new.table_id ≡ seat.old.table_id }
        ensures idle { IsIdleAgain slot seat.old.me seat.new.me }
        ensures state { result ≡ after (pointer_of (opening_of self.now)) (own_of seat.new.me.0).seen key }
    {
        let Some(current) = seat.slot_mut(&self.table.shared, slot) else {
            unreachable!()
        };
        let found = current.map.find(&mut current.session, key);
        self.give_back(seat, slot);
        found
    }

    // Scans a range by the session in its slot, and gives the slot back.
    pub(crate) fn scan_in_place(
        &self,
        seat: &mut Seat<Option<Current>, SlotView>,
        slot: usize,
        lo: u64,
        hi: u64,
        into: &mut [Entry],
    ) -> Scanned
        requires its_own { seat.old.table_id ≡ self.now.table.shared.table_id }
        requires in_range { slot < seat.old.table_id.slots }
        requires same_first { seat.old.me.0.first ≡ opening_of self.now }
        requires taken { HasOwnSlot slot seat.old.me }
        ensures same { seat.new.table_id ≡ seat.old.table_id }
        ensures idle { IsIdleAgain slot seat.old.me seat.new.me }
        ensures report { IsReport (opening_of self.now)
            (own_of seat.old.me.0).seen (own_of seat.new.me.0).seen
            lo (stop_of hi result.next) (take result.filled into.new) }
        ensures stopped { IfSome result.next (StoppedFull lo hi (length into.old) result.filled) }
        ensures filled { result.filled ≤ length into.old }
        ensures others { drop result.filled into.new ≡ drop result.filled into.old }
    {
        let Some(current) = seat.slot_mut(&self.table.shared, slot) else {
            unreachable!()
        };
        let scanned = current.map.scan(&mut current.session, lo, hi, into);
        self.give_back(seat, slot);
        scanned
    }

    // Scans a range backwards by the session in its slot, and gives the slot back.
    pub(crate) fn scan_back_in_place(
        &self,
        seat: &mut Seat<Option<Current>, SlotView>,
        slot: usize,
        lo: u64,
        hi: u64,
        into: &mut [Entry],
    ) -> Scanned
        requires its_own { seat.old.table_id ≡ self.now.table.shared.table_id }
        requires in_range { slot < seat.old.table_id.slots }
        requires same_first { seat.old.me.0.first ≡ opening_of self.now }
        requires taken { HasOwnSlot slot seat.old.me }
        ensures same { seat.new.table_id ≡ seat.old.table_id }
        ensures idle { IsIdleAgain slot seat.old.me seat.new.me }
        ensures report { IsReportBack (opening_of self.now)
            (own_of seat.old.me.0).seen (own_of seat.new.me.0).seen
            (start_of lo result.next) hi (take result.filled into.new) }
        ensures stopped { IfSome result.next (StoppedFull lo hi (length into.old) result.filled) }
        ensures filled { result.filled ≤ length into.old }
        ensures others { drop result.filled into.new ≡ drop result.filled into.old }
    {
        let Some(current) = seat.slot_mut(&self.table.shared, slot) else {
            unreachable!()
        };
        let scanned = current.map.scan_back(&mut current.session, lo, hi, into);
        self.give_back(seat, slot);
        scanned
    }

    // Takes a snapshot of a range by the session in its slot, and gives the slot back.
    pub(crate) fn snapshot_in_place(
        &self,
        alloc: Global,
        seat: &mut Seat<Option<Current>, SlotView>,
        slot: usize,
        lo: u64,
        hi: u64,
        tries: u32,
    ) -> Result<Option<Vec<Entry>>, AllocError>
        requires its_own { seat.old.table_id ≡ self.now.table.shared.table_id }
        requires in_range { slot < seat.old.table_id.slots }
        requires same_first { seat.old.me.0.first ≡ opening_of self.now }
        requires taken { HasOwnSlot slot seat.old.me }
        ensures same { seat.new.table_id ≡ seat.old.table_id }
        ensures idle { IsIdleAgain slot seat.old.me seat.new.me }
        ensures snapshot { IfOk result (λ found. IfSome found (λ entries.
            IsSnapshot (opening_of self.now) (own_of seat.new.me.0).seen lo hi entries.items)) }
    {
        let Some(current) = seat.slot_mut(&self.table.shared, slot) else {
            unreachable!()
        };
        let found = current
            .map
            .snapshot(alloc, &mut current.session, lo, hi, tries);
        self.give_back(seat, slot);
        found
    }

    // Runs an operation that changes the map by the session in its slot, if it can be made at once, and gives the slot back. There is no
    // answer, if the session lacks room for it in the current map, or if it was given up.
    pub(crate) fn change_in_place(
        &self,
        seat: &mut Seat<Option<Current>, SlotView>,
        slot: usize,
        op: Op,
        tries: u32,
    ) -> Option<Answer>
        requires its_own { seat.old.table_id ≡ self.now.table.shared.table_id }
        requires in_range { slot < seat.old.table_id.slots }
        requires same_first { seat.old.me.0.first ≡ opening_of self.now }
        requires taken { HasOwnSlot slot seat.old.me }
        requires updates { IsUpdate op }
        requires fits { FitsWords op }
        ensures same { seat.new.table_id ≡ seat.old.table_id }
        ensures back { IsGivenBack slot seat.old.me seat.new.me }
        ensures answered { IfSome result (AnswersFrom (opening_of self.now) op slot
            (own_of seat.old.me.0) (own_of seat.new.me.0)) }
        ensures unchanged { IsNone result
            → IsContinued (own_of seat.old.me.0) (own_of seat.new.me.0) }
    {
        let Some(current) = seat.slot_mut(&self.table.shared, slot) else {
            unreachable!()
        };
        let given = current.try_change(op, tries);
        self.give_back(seat, slot);
        given
    }
}
