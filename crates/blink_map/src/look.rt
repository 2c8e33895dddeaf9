//! The calls on a held session that change nothing. They wait for nobody.
ghost use Rattle.std.specs.Prelude.{◌≡◌, ◌≤◌, IfOk, IfSome, drop, length, take};
ghost use Rattle.blink_batch.specs.{pointer_of};
ghost use Rattle.blink_live.specs.{IsReport, IsReportBack, IsSnapshot, StoppedFull, after, start_of, stop_of};
ghost use Rattle.blink_generation.specs.{AnswersAsSeen};
ghost use Rattle.blink_map.specs.Holding.{IsHeldOf, IsHeldOn, seen_by_held, stock_of_held};
ghost use Rattle.blink_map.specs.Sessions.{opening_of};

use crate::growing::GrowingMap;
use crate::held::Held;
use crate::slots::Current;
use blink_batch::Entry;
use blink_generation::Stock;
use blink_live::Scanned;
use std::alloc::{AllocError, Global};

impl GrowingMap {
    /// Looks up a key by a held session, as `try_find` does. The call takes no memory, waits for nobody, and returns.
    pub fn find_held(&self, held: &mut Held, key: u64) -> Option<u64>
        requires its_own { IsHeldOf self.now held.old }
        ensures state { result ≡ after (pointer_of (opening_of self.now)) (seen_by_held held.new) key }
        ensures same { IsHeldOn held.old held.new }
    {
        let Held {
            seat: _,
            slot: _,
            current,
        } = held;
        let Current {
            map,
            session,
            number: _,
            changes: _,
        } = current;
        map.find(session, key)
    }

    /// Looks up several keys by a held session, of which the loads overlap, as `Map::find_all` of `blink_generation` does: to each key it
    /// answers, in its place, what `find_held` would answer, after the changes of all keys that the session has seen by then. The call takes no
    /// memory, waits for nobody, and returns.
    pub fn find_all_held(&self, held: &mut Held, keys: &[u64], answers: &mut [Option<u64>])
        requires its_own { IsHeldOf self.now held.old }
        requires places { length answers.old ≡ length keys.now }
        ensures answers { AnswersAsSeen (opening_of self.now) (seen_by_held held.old)
            keys.now answers.new (seen_by_held held.new) }
        ensures same { IsHeldOn held.old held.new }
    {
        let Held {
            seat: _,
            slot: _,
            current,
        } = held;
        let Current {
            map,
            session,
            number: _,
            changes: _,
        } = current;
        map.find_all(session, keys, answers);
    }

    /// Reports the entries whose keys are from `lo` to `hi`, both included, in ascending order, by a held session, as `try_scan` does. The
    /// call takes no memory, waits for nobody, and returns.
    pub fn scan_held(&self, held: &mut Held, lo: u64, hi: u64, into: &mut [Entry]) -> Scanned
        requires its_own { IsHeldOf self.now held.old }
        ensures report { IsReport (opening_of self.now) (seen_by_held held.old) (seen_by_held held.new)
            lo (stop_of hi result.next) (take result.filled into.new) }
        ensures stopped { IfSome result.next (StoppedFull lo hi (length into.old) result.filled) }
        ensures filled { result.filled ≤ length into.old }
        ensures others { drop result.filled into.new ≡ drop result.filled into.old }
        ensures same { IsHeldOn held.old held.new }
    {
        let Held {
            seat: _,
            slot: _,
            current,
        } = held;
        let Current {
            map,
            session,
            number: _,
            changes: _,
        } = current;
        map.scan(session, lo, hi, into)
    }

    /// Reports the entries whose keys are from `lo` to `hi`, both included, in descending order, by a held session, as `try_scan_back`
    /// does. The call takes no memory, waits for nobody, and returns.
    pub fn scan_back_held(&self, held: &mut Held, lo: u64, hi: u64, into: &mut [Entry]) -> Scanned
        requires its_own { IsHeldOf self.now held.old }
        ensures report { IsReportBack (opening_of self.now) (seen_by_held held.old)
            (seen_by_held held.new) (start_of lo result.next) hi (take result.filled into.new) }
        ensures stopped { IfSome result.next (StoppedFull lo hi (length into.old) result.filled) }
        ensures filled { result.filled ≤ length into.old }
        ensures others { drop result.filled into.new ≡ drop result.filled into.old }
        ensures same { IsHeldOn held.old held.new }
    {
        let Held {
            seat: _,
            slot: _,
            current,
        } = held;
        let Current {
            map,
            session,
            number: _,
            changes: _,
        } = current;
        map.scan_back(session, lo, hi, into)
    }

    /// Returns the entries whose keys are from `lo` to `hi`, both included, in ascending order, as all of them were at one time in the
    /// call, by a held session, as `try_snapshot` does. The call waits for nobody, and returns. If it is refused memory, nothing is changed,
    /// though the session may have seen more.
    pub fn snapshot_held(
        &self,
        alloc: Global,
        held: &mut Held,
        lo: u64,
        hi: u64,
        tries: u32,
    ) -> Result<Option<Vec<Entry>>, AllocError>
        requires its_own { IsHeldOf self.now held.old }
        ensures snapshot { IfOk result (λ found. IfSome found (λ entries.
            IsSnapshot (opening_of self.now) (seen_by_held held.new) lo hi entries.items)) }
        ensures same { IsHeldOn held.old held.new }
    {
        let Held {
            seat: _,
            slot: _,
            current,
        } = held;
        let Current {
            map,
            session,
            number: _,
            changes: _,
        } = current;
        map.snapshot(alloc, session, lo, hi, tries)
    }

    /// Returns what a held session has of rows and page numbers in the current map, for an operator to look at.
    pub fn stock(&self, held: &Held) -> Stock
        ensures { result ≡ stock_of_held held.now }
    {
        let current = &held.current;
        current.map.stock(&current.session)
    }
}
