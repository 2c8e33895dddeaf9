//! Snapshots: the entries of a range of keys as all of them were at one time, while other sessions change the map.
ghost use Rattle.std.specs.Prelude.{◌≡◌, IfOk, IfSome};
ghost use Rattle.blink_live.specs.{IsSnapshot, opening_of as opening_of_table};
ghost use Rattle.blink_generation.specs.Finding.{HasLooked};
ghost use Rattle.blink_generation.specs.Places.{IsMemberOf};
ghost use Rattle.blink_generation.specs.Sessions.{IsSameBesideSeen, IsSessionOf, opening_of, seen_by, seen_of_member};

use crate::map::{Map, Session};
use crate::member::{Member, next_mark};
use crate::steps::mark_place;
use blink_batch::Entry;
use blink_live::Live;
use std::alloc::{AllocError, Global};

impl Map {
    /// Returns the entries whose keys are from `lo` to `hi`, both included, in ascending order, as all of them were at one time in
    /// the call: they are what the changes that the session has seen afterwards leave of each of these keys. `None` if that failed
    /// `tries` times, as some leaf of the range was changed each time while the call read the range. So it suits ranges of few
    /// leaves, or of few changes; where it returns `None`, [`scan`](Map::scan) reports the range leaf by leaf. A range is empty if
    /// `lo > hi`.
    ///
    /// The call waits for nobody, and returns. It takes memory for the entries, and while it runs 16 bytes for each leaf. If it is
    /// refused memory, nothing is changed, though the session may have seen more.
    pub fn snapshot(
        &self,
        alloc: Global,
        session: &mut Session,
        lo: u64,
        hi: u64,
        tries: u32,
    ) -> Result<Option<Vec<Entry>>, AllocError>
        requires its_own { IsSessionOf self.now session.old }
        ensures snapshot { IfOk result (λ found. IfSome found (λ entries.
            IsSnapshot (opening_of self.now) (seen_by session.new) lo hi entries.items)) }
        ensures same { IsSameBesideSeen session.old session.new }
    {
        let Session { member } = session;
        member.snapshot(alloc, &self.live, lo, hi, tries)
    }
}

impl Member {
    // Takes a snapshot of a range of the tree. While it does, the member's place is marked.
    fn snapshot(
        &mut self,
        alloc: Global,
        live: &Live,
        lo: u64,
        hi: u64,
        tries: u32,
    ) -> Result<Option<Vec<Entry>>, AllocError>
        requires its_own { IsMemberOf live.now self.old }
        ensures snapshot { IfOk result (λ found. IfSome found (λ entries.
            IsSnapshot (opening_of_table live.now) (seen_of_member self.new) lo hi entries.items)) }
        ensures looked { HasLooked self.old self.new }
    {
        let Member {
            seat,
            rows: _,
            pages: _,
            place,
            room: _,
            mark,
        } = self;
        mark_place(live, seat, *place, next_mark(mark));
        let found = live.snapshot_by(alloc, seat, lo, hi, tries);
        mark_place(live, seat, *place, 0);
        found
    }
}
