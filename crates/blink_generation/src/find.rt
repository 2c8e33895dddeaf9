//! Looking up a key.
ghost use Rattle.std.specs.Prelude.{◌≡◌};
ghost use Rattle.blink_batch.specs.{pointer_of};
ghost use Rattle.blink_live.specs.{after};
ghost use Rattle.blink_generation.specs.Finding.{HasLooked};
ghost use Rattle.blink_generation.specs.Places.{IsMemberOf};
ghost use Rattle.blink_generation.specs.Sessions.{IsSameBesideSeen, IsSessionOf, opening_of, seen_by, state_seen};

use crate::map::{Map, Session};
use crate::member::{Member, next_mark};
use crate::steps::mark_place;
use blink_batch::Answer;
use blink_live::Live;

impl Map {
    /// Looks up a key. It returns the key's pointer, or `None` if the key is absent, after the changes of all keys that the
    /// session has seen by the end of the call. A session never un-sees a change. The call takes no memory, waits for nobody, and
    /// returns.
    pub fn find(&self, session: &mut Session, key: u64) -> Option<u64>
        requires its_own { IsSessionOf self.now session.old }
        ensures state { result ≡ after (pointer_of (opening_of self.now)) (seen_by session.new) key }
        ensures same { IsSameBesideSeen session.old session.new }
    {
        let Session { member } = session;
        member.look(&self.live, key)
    }
}

impl Member {
    // Looks up a key of the tree. While it does, its place is marked.
    fn look(&mut self, live: &Live, key: u64) -> Option<u64>
        requires its_own { IsMemberOf live.now self.old }
        ensures state { result ≡ state_seen live.now self.new key }
        ensures looked { HasLooked self.old self.new }
    {
        let Member {
            seat,
            rows: _,
            pages: _,
            place,
            room: _,
            mark,
        } = self;
        mark_place(live, seat, *place, next_mark(mark));
        let answer = live.search(seat, key, None);
        mark_place(live, seat, *place, 0);
        match answer {
            Answer::Found(pointer) => Some(pointer),
            _ => None,
        }
    }
}
