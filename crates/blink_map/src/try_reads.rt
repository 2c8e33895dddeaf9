//! The calls on a session that change nothing, and wait for nobody.
ghost use Rattle.std.specs.Prelude.{◌≡◌, ◌≤◌, ◌⊎◌, IfErr, IfOk, IfSome, OnErr, drop, length, take};
ghost use Rattle.blink_batch.specs.{pointer_of};
ghost use Rattle.blink_live.specs.{IsReport, IsReportBack, IsSnapshot, StoppedFull, after, start_of, stop_of};
ghost use Rattle.blink_map.specs.declared.error.GrowError.TheVariants.{Busy, OutOfMemory};
ghost use Rattle.blink_map.specs.Sessions.{IsSameBesideSeen, IsSameSession, IsSessionOf, opening_of, seen_by};

use crate::error::GrowError;
use crate::growing::{GrowingMap, Session};
use blink_batch::Entry;
use blink_live::Scanned;
use std::alloc::Global;

impl GrowingMap {
    /// Looks up a key. It returns the key's pointer, or `None` if the key is absent, after the changes of all keys that the session has
    /// seen by the end of the call, whatever maps they were made in. A session never un-sees a change. The call looks for the session
    /// `tries` times, at least once, and lets a renewal that has begun go first. It takes no memory, waits for nobody, and returns.
    ///
    /// The call refuses with `Busy`, if the map was renewed, or was about to be, at each look. The session is as it was then.
    pub fn try_find(
        &self,
        session: &mut Session,
        key: u64,
        tries: u32,
    ) -> Result<Option<u64>, GrowError>
        requires its_own { IsSessionOf self.now session.old }
        ensures state { IfOk result
            (λ found. found ≡ after (pointer_of (opening_of self.now)) (seen_by session.new) key) }
        ensures same { IsSameBesideSeen session.old session.new }
        ensures refused { IfErr result (λ refusal. refusal ≡ Busy) }
        ensures unchanged { OnErr result (IsSameSession session.old session.new) }
    {
        let Session { seat, slot } = session;
        if !self.take_slot_unless(&self.gathering, seat, *slot, tries) {
            return Err(GrowError::Busy);
        }
        Ok(self.find_in_place(seat, *slot, key))
    }

    /// Reports the entries whose keys are from `range.0` to `range.1`, both included, in ascending order, as `Map::scan` of `blink_generation`
    /// does. What it says of a key is what the changes up to some time in the call leave of it, whatever maps they were made in. The call
    /// looks for the session `tries` times, at least once, and lets a renewal that has begun go first. It takes no memory, waits for
    /// nobody, and returns.
    ///
    /// The call refuses with `Busy`, if the map was renewed, or was about to be, at each look. The session and `into` are as they were
    /// then.
    pub fn try_scan(
        &self,
        session: &mut Session,
        range: (u64, u64),
        tries: u32,
        into: &mut [Entry],
    ) -> Result<Scanned, GrowError>
        requires its_own { IsSessionOf self.now session.old }
        ensures report { IfOk result (λ scanned.
            IsReport (opening_of self.now) (seen_by session.old) (seen_by session.new)
            range.0 (stop_of range.1 scanned.next) (take scanned.filled into.new)) }
        ensures stopped { IfOk result (λ scanned. IfSome scanned.next
            (StoppedFull range.0 range.1 (length into.old) scanned.filled)) }
        ensures filled { IfOk result (λ scanned. scanned.filled ≤ length into.old) }
        ensures others { IfOk result
            (λ scanned. drop scanned.filled into.new ≡ drop scanned.filled into.old) }
        ensures same { IsSameBesideSeen session.old session.new }
        ensures refused { IfErr result (λ refusal. refusal ≡ Busy) }
        ensures unchanged { OnErr result
            ((IsSameSession session.old session.new) × (into.new ≡ into.old)) }
    {
        let Session { seat, slot } = session;
        if !self.take_slot_unless(&self.gathering, seat, *slot, tries) {
            return Err(GrowError::Busy);
        }
        let (lo, hi) = range;
        Ok(self.scan_in_place(seat, *slot, lo, hi, into))
    }

    /// Reports the entries whose keys are from `range.0` to `range.1`, both included, in descending order, as `Map::scan_back` of
    /// `blink_generation` does. What it says of a key is what the changes up to some time in the call leave of it, whatever maps they were made
    /// in. The call looks for the session `tries` times, at least once, and lets a renewal that has begun go first. It takes no memory,
    /// waits for nobody, and returns.
    ///
    /// The call refuses with `Busy`, if the map was renewed, or was about to be, at each look. The session and `into` are as they were
    /// then.
    pub fn try_scan_back(
        &self,
        session: &mut Session,
        range: (u64, u64),
        tries: u32,
        into: &mut [Entry],
    ) -> Result<Scanned, GrowError>
        requires its_own { IsSessionOf self.now session.old }
        ensures report { IfOk result (λ scanned.
            IsReportBack (opening_of self.now) (seen_by session.old) (seen_by session.new)
            (start_of range.0 scanned.next) range.1 (take scanned.filled into.new)) }
        ensures stopped { IfOk result (λ scanned. IfSome scanned.next
            (StoppedFull range.0 range.1 (length into.old) scanned.filled)) }
        ensures filled { IfOk result (λ scanned. scanned.filled ≤ length into.old) }
        ensures others { IfOk result
            (λ scanned. drop scanned.filled into.new ≡ drop scanned.filled into.old) }
        ensures same { IsSameBesideSeen session.old session.new }
        ensures refused { IfErr result (λ refusal. refusal ≡ Busy) }
        ensures unchanged { OnErr result
            ((IsSameSession session.old session.new) × (into.new ≡ into.old)) }
    {
        let Session { seat, slot } = session;
        if !self.take_slot_unless(&self.gathering, seat, *slot, tries) {
            return Err(GrowError::Busy);
        }
        let (lo, hi) = range;
        Ok(self.scan_back_in_place(seat, *slot, lo, hi, into))
    }

    /// Returns the entries whose keys are from `range.0` to `range.1`, both included, in ascending order, as all of them were at one time
    /// in the call, as `Map::snapshot` of `blink_generation` does: they are what the changes that the session has seen afterwards leave of each
    /// of these keys, whatever maps they were made in. The call looks for the session `tries` times, at least once, and lets a renewal
    /// that has begun go first. Then it tries the snapshot `tries` times: `None` if some leaf of the range was changed each time. A
    /// renewal waits for the call, which takes memory for the entries, and while it runs 16 bytes for each leaf. It waits for nobody, and
    /// returns.
    ///
    /// The call refuses with `Busy`, if the map was renewed, or was about to be, at each look: the session is as it was then. It refuses
    /// with `OutOfMemory`, if memory was refused: nothing is changed, though the session may have seen more.
    pub fn try_snapshot(
        &self,
        alloc: Global,
        session: &mut Session,
        range: (u64, u64),
        tries: u32,
    ) -> Result<Option<Vec<Entry>>, GrowError>
        requires its_own { IsSessionOf self.now session.old }
        ensures snapshot { IfOk result (λ found. IfSome found (λ entries.
            IsSnapshot (opening_of self.now) (seen_by session.new) range.0 range.1 entries.items)) }
        ensures same { IsSameBesideSeen session.old session.new }
        ensures refused { IfErr result (λ refusal. (refusal ≡ Busy) ⊎ (refusal ≡ OutOfMemory)) }
        ensures unchanged { IfErr result
            (λ refusal. refusal ≡ Busy → IsSameSession session.old session.new) }
    {
        let Session { seat, slot } = session;
        if !self.take_slot_unless(&self.gathering, seat, *slot, tries) {
            return Err(GrowError::Busy);
        }
        let (lo, hi) = range;
        match self.snapshot_in_place(alloc, seat, *slot, lo, hi, tries) {
            Ok(found) => Ok(found),
            Err(_) => Err(GrowError::OutOfMemory),
        }
    }
}
