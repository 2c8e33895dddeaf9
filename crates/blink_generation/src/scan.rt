//! Scans: the entries of a range of keys in ascending order, while other sessions change the map.
ghost use Rattle.std.specs.Prelude.{◌≡◌, ◌≤◌, IfSome, drop, length, take};
ghost use Rattle.blink_live.specs.{IsReport, StoppedFull, stop_of};
ghost use Rattle.blink_generation.specs.Finding.{HasLooked, HasReported};
ghost use Rattle.blink_generation.specs.Places.{IsMemberOf};
ghost use Rattle.blink_generation.specs.Sessions.{IsSameBesideSeen, IsSessionOf, opening_of, seen_by};

use crate::map::{Map, Session};
use crate::member::{Member, next_mark};
use crate::steps::mark_place;
use blink_batch::Entry;
use blink_live::{Live, Scanned};

impl Map {
    /// Reports the entries whose keys are from `lo` to `hi`, both included, in ascending order, whatever other sessions do at the
    /// same time. It fills `into` from the first place on, and leaves the other places as they were. It stops at the end of the
    /// range; or where the slice is full, and then `next` tells the key from which another scan goes on. A range is empty if
    /// `lo > hi`. The first `n` entries from a key on are those of `scan(session, key, u64::MAX, &mut into[..n])`.
    ///
    /// The scan reads leaf after leaf, each at one time, from the left. So what it says of a key is what the changes up to some
    /// time in the call leave of it, and of a greater key what the changes up to that time or a later one leave. A key that is
    /// present throughout the call is reported, and a key that is absent throughout isn't. The session has seen the changes before
    /// each of these times afterwards. The call takes no memory, waits for nobody, and returns.
    pub fn scan(&self, session: &mut Session, lo: u64, hi: u64, into: &mut [Entry]) -> Scanned
        requires its_own { IsSessionOf self.now session.old }
        ensures report { IsReport (opening_of self.now) (seen_by session.old) (seen_by session.new)
            lo (stop_of hi result.next) (take result.filled into.new) }
        ensures stopped { IfSome result.next (StoppedFull lo hi (length into.old) result.filled) }
        ensures filled { result.filled ≤ length into.old }
        ensures others { drop result.filled into.new ≡ drop result.filled into.old }
        ensures same { IsSameBesideSeen session.old session.new }
    {
        let Session { member } = session;
        member.scan(&self.live, lo, hi, into)
    }
}

impl Member {
    // Scans a range of the tree. While it does, the member's place is marked.
    fn scan(&mut self, live: &Live, lo: u64, hi: u64, into: &mut [Entry]) -> Scanned
        requires its_own { IsMemberOf live.now self.old }
        ensures report { HasReported live.now self.old self.new
            lo (stop_of hi result.next) (take result.filled into.new) }
        ensures stopped { IfSome result.next (StoppedFull lo hi (length into.old) result.filled) }
        ensures filled { result.filled ≤ length into.old }
        ensures others { drop result.filled into.new ≡ drop result.filled into.old }
        ensures looked { HasLooked self.old self.new }
    {
        let Member {
            seat,
            rows: _,
            pages: _,
            place,
            room: _,
            mark,
        } = self;
        mark_place(live, seat, *place, next_mark(mark));
        let scanned = live.scan_by(seat, lo, hi, into);
        mark_place(live, seat, *place, 0);
        scanned
    }
}
