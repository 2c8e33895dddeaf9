//! Backward scans: the entries of a range of keys in descending order, while other sessions change the map.
ghost use Rattle.std.specs.Prelude.{◌≡◌, ◌≤◌, IfSome, drop, length, take};
ghost use Rattle.blink_live.specs.{IsReportBack, StoppedFull, start_of};
ghost use Rattle.blink_generation.specs.Finding.{HasLooked, HasReportedBack};
ghost use Rattle.blink_generation.specs.Places.{IsMemberOf};
ghost use Rattle.blink_generation.specs.Sessions.{IsSameBesideSeen, IsSessionOf, opening_of, seen_by};

use crate::map::{Map, Session};
use crate::member::{Member, next_mark};
use crate::steps::mark_place;
use blink_batch::Entry;
use blink_live::{Live, Scanned};

impl Map {
    /// Reports the entries whose keys are from `lo` to `hi`, both included, in descending order, whatever other sessions do at the
    /// same time. It fills `into` from the first place on, and leaves the other places as they were. It stops at the end of the
    /// range; or where the slice is full, and then `next` tells the key from which another backward scan goes on. A range is empty
    /// if `lo > hi`. The last `n` entries up to a key are those of `scan_back(session, 0, key, &mut into[..n])`.
    ///
    /// The scan reads leaf after leaf, each at one time, from the right. So what it says of a key is what the changes up to some
    /// time in the call leave of it, and of a smaller key what the changes up to that time or a later one leave. A key that is
    /// present throughout the call is reported, and a key that is absent throughout isn't. The session has seen the changes before
    /// each of these times afterwards. The call takes no memory, waits for nobody, and returns. It goes down the tree once for each
    /// leaf of the range, also for leaves without an entry.
    pub fn scan_back(&self, session: &mut Session, lo: u64, hi: u64, into: &mut [Entry]) -> Scanned
        requires its_own { IsSessionOf self.now session.old }
        ensures report { IsReportBack (opening_of self.now) (seen_by session.old) (seen_by session.new)
            (start_of lo result.next) hi (take result.filled into.new) }
        ensures stopped { IfSome result.next (StoppedFull lo hi (length into.old) result.filled) }
        ensures filled { result.filled ≤ length into.old }
        ensures others { drop result.filled into.new ≡ drop result.filled into.old }
        ensures same { IsSameBesideSeen session.old session.new }
    {
        let Session { member } = session;
        member.scan_back(&self.live, lo, hi, into)
    }
}

impl Member {
    // Scans a range of the tree backwards. While it does, the member's place is marked.
    fn scan_back(&mut self, live: &Live, lo: u64, hi: u64, into: &mut [Entry]) -> Scanned
        requires its_own { IsMemberOf live.now self.old }
        ensures report { HasReportedBack live.now self.old self.new
            (start_of lo result.next) hi (take result.filled into.new) }
        ensures stopped { IfSome result.next (StoppedFull lo hi (length into.old) result.filled) }
        ensures filled { result.filled ≤ length into.old }
        ensures others { drop result.filled into.new ≡ drop result.filled into.old }
        ensures looked { HasLooked self.old self.new }
    {
        let Member {
            seat,
            rows: _,
            pages: _,
            place,
            room: _,
            mark,
        } = self;
        mark_place(live, seat, *place, next_mark(mark));
        let scanned = live.scan_back_by(seat, lo, hi, into);
        mark_place(live, seat, *place, 0);
        scanned
    }
}
