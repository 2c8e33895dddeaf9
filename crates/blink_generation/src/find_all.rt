//! Looking up several keys by one call.
ghost use Rattle.std.specs.Prelude.{◌≡◌, length};
ghost use Rattle.blink_live.specs.{opening_of as opening_of_table};
ghost use Rattle.blink_generation.specs.Finding.{HasLooked};
ghost use Rattle.blink_generation.specs.Places.{IsMemberOf};
ghost use Rattle.blink_generation.specs.Sessions.{AnswersAsSeen, IsSameBesideSeen, IsSessionOf, opening_of, seen_by, seen_of_member};

use crate::map::{Map, Session};
use crate::member::{Member, next_mark};
use crate::steps::mark_place;
use blink_live::Live;

impl Map {
    /// Looks up several keys, of which the loads overlap: where the tree is larger than the processor's cache, that takes less
    /// time than as many calls of `find`. To each key it answers, in its place, what `find` would answer: the key's pointer, or
    /// `None` if the key is absent, after the changes of all keys that the session has seen by then. The keys are looked up in
    /// their order. The call takes no memory, waits for nobody, and returns.
    pub fn find_all(&self, session: &mut Session, keys: &[u64], answers: &mut [Option<u64>])
        requires its_own { IsSessionOf self.now session.old }
        requires places { length answers.old ≡ length keys.now }
        ensures answers { AnswersAsSeen (opening_of self.now) (seen_by session.old)
            keys.now answers.new (seen_by session.new) }
        ensures same { IsSameBesideSeen session.old session.new }
    {
        let Session { member } = session;
        member.look_over(&self.live, keys, answers);
    }
}

impl Member {
    // Looks up several keys of the tree. While it does, the member's place is marked.
    fn look_over(&mut self, live: &Live, keys: &[u64], answers: &mut [Option<u64>])
        requires its_own { IsMemberOf live.now self.old }
        requires places { length answers.old ≡ length keys.now }
        ensures answers { AnswersAsSeen (opening_of_table live.now) (seen_of_member self.old)
            keys.now answers.new (seen_of_member self.new) }
        ensures looked { HasLooked self.old self.new }
    {
        let Member {
            seat,
            rows: _,
            pages: _,
            place,
            room: _,
            mark,
        } = self;
        mark_place(live, seat, *place, next_mark(mark));
        live.search_all(seat, keys, answers);
        mark_place(live, seat, *place, 0);
    }
}
