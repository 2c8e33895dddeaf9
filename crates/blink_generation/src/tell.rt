//! Telling another session what one has seen.
ghost use Rattle.std.specs.Prelude.{◌≡◌};
ghost use mathlib.Core.List.{IsPrefix};
ghost use Rattle.blink_live.specs.{OneIsPrefix};
ghost use Rattle.blink_generation.specs.Finding.{HasLooked};
ghost use Rattle.blink_generation.specs.Places.{IsMemberOf};
ghost use Rattle.blink_generation.specs.Sessions.{IsSameBesideSeen, IsSameSession, IsSessionOf, seen_by, seen_of_member};
ghost use Rattle.blink_generation.specs.Telling.{IsStill};

use crate::map::{Map, Session};
use crate::member::Member;
use crate::steps::mark_place;
use blink_live::Live;

impl Map {
    /// Tells session `to` what session `from` has seen: after the call `to` has seen all that `from` has seen. `from` stays as it
    /// was. The call takes no memory, waits for nobody, and returns.
    pub fn tell(&self, from: &mut Session, to: &mut Session)
        requires from_its_own { IsSessionOf self.now from.old }
        requires to_its_own { IsSessionOf self.now to.old }
        ensures prefixes { OneIsPrefix (seen_by from.old) (seen_by to.old) }
        ensures told { IsPrefix (seen_by from.old) (seen_by to.new) }
        ensures to { IsSameBesideSeen to.old to.new }
        ensures from { IsSameSession from.old from.new }
    {
        let Session { member: teller } = from;
        let Session { member } = to;
        teller.tell(&self.live, member);
    }
}

impl Member {
    // Tells another member what this one has seen.
    fn tell(&mut self, live: &Live, other: &mut Member)
        requires its_own { IsMemberOf live.now self.old }
        requires other_its_own { IsMemberOf live.now other.old }
        ensures prefixes { OneIsPrefix (seen_of_member self.old) (seen_of_member other.old) }
        ensures told { IsPrefix (seen_of_member self.old) (seen_of_member other.new) }
        ensures looked { HasLooked other.old other.new }
        ensures still { IsStill self.old self.new }
    {
        let Member {
            seat: teller,
            rows: _,
            pages: _,
            place: _,
            room: _,
            mark: _,
        } = self;
        let Member {
            seat,
            rows: _,
            pages: _,
            place,
            room: _,
            mark: _,
        } = other;
        live.pass_on(teller, seat);
        live.look_up(seat);
        // Stored for the proof: it shows that the member has seen its own changes.
        mark_place(live, seat, *place, 0);
    }
}
