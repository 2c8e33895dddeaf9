//! An operation that changes a map, by a session that stays where it is: it is made at once, or given up.
ghost use Rattle.std.specs.Prelude.{IfOk, IfSome, IsNone, OnErr};
ghost use Rattle.blink_batch.specs.{FitsWords};
ghost use Rattle.blink_machine.specs.{IsUpdate};
ghost use Rattle.blink_generation.specs.Changing.{HasTurnedOut};
ghost use Rattle.blink_generation.specs.Places.{IsMemberOf};
ghost use Rattle.blink_generation.specs.Putting.{HasTried, IsUnchangedBy, LacksKeyOf};
ghost use Rattle.blink_generation.specs.Sessions.{HasRoom, IsAnswered, IsSameBesideRoom, IsSessionOf, LacksRoom};

use crate::change::{aim, come_back};
use crate::error::Full;
use crate::map::{Map, Session};
use crate::member::{Member, next_mark};
use crate::steps::mark_place;
use crate::waiting::BATCH_ROWS;
use blink_batch::{Answer, Op};
use blink_live::Live;

impl Map {
    /// Runs an operation that changes the map as `start` does, by a session that stays where it is, so it costs less. Where the operation
    /// would have to wait it is given up, and so is an insertion into a leaf that is full. Then there is no answer, and the operation has
    /// changed nothing, though the session may have seen more; `start` begins it anew. The call takes `tries` steps in vain before it gives
    /// up, at least one. It takes no memory, waits for nobody, and returns.
    ///
    /// The call is refused where `start` gives the session back for lack of room. Then it changes nothing, but for what the session has
    /// drawn. An insertion is refused only if its key is absent, which it looks up then; so the session may have seen more.
    pub fn try_change(
        &self,
        session: &mut Session,
        op: Op,
        tries: u32,
    ) -> Result<Option<Answer>, Full>
        requires its_own { IsSessionOf self.now session.old }
        requires updates { IsUpdate op }
        requires fits { FitsWords op }
        ensures answered { IfOk result (λ given. IfSome given
            (IsAnswered self.now op session.old session.new)) }
        ensures given_up { IfOk result (λ given. IsNone given → HasTried session.old session.new) }
        ensures full { OnErr result (LacksRoom op session.old session.new) }
        ensures absent { OnErr result (LacksKeyOf self.now op session.old session.new) }
        ensures unchanged { OnErr result (IsUnchangedBy op session.old session.new) }
    {
        match self.try_run(session, op, tries) {
            Ok(given) => Ok(given),
            Err(full) => match self.answer_with_no_room(session, op) {
                Some(answer) => Ok(Some(answer)),
                None => Err(full),
            },
        }
    }

    // The same of an operation that its session has room for.
    fn try_run(&self, session: &mut Session, op: Op, tries: u32) -> Result<Option<Answer>, Full>
        requires its_own { IsSessionOf self.now session.old }
        requires updates { IsUpdate op }
        requires fits { FitsWords op }
        ensures answered { IfOk result (λ given. IfSome given
            (IsAnswered self.now op session.old session.new)) }
        ensures given_up { IfOk result (λ given. IsNone given → HasTried session.old session.new) }
        ensures full { OnErr result (LacksRoom op session.old session.new) }
        ensures unchanged { OnErr result (IsSameBesideRoom session.old session.new) }
    {
        let Session { member } = session;
        if !member.draw(&self.live, op) {
            return Err(Full);
        }
        match member.try_change(&self.live, op, tries) {
            Some(answer) => {
                member.recycle(&self.live, BATCH_ROWS);
                Ok(Some(answer))
            }
            None => Ok(None),
        }
    }
}

impl Member {
    // Runs an operation that changes the tree, or gives it up. While it does, the member's place is marked.
    fn try_change(&mut self, live: &Live, op: Op, tries: u32) -> Option<Answer>
        requires its_own { IsMemberOf live.now self.old }
        requires updates { IsUpdate op }
        requires fits { FitsWords op }
        requires room { HasRoom op self.old }
        ensures { HasTurnedOut live.now op self.old self.new result }
    {
        let Member {
            seat,
            rows,
            pages,
            place,
            room,
            mark,
        } = self;
        mark_place(live, seat, *place, next_mark(mark));
        aim(room, op, rows, pages);
        let given = live.try_change_by(seat, room, op, tries);
        come_back(live, seat, *place);
        rows.next = room.rows.next;
        pages.next = room.pages.next;
        given
    }
}
