//! An operation that changes a map, in one go: where it meets nobody, it ends at once, and its session never becomes a `Pending`.
ghost use Rattle.std.specs.Prelude.{IfErr, IfOk};
ghost use Rattle.blink_batch.specs.{FitsWords};
ghost use Rattle.blink_batch.specs.declared.Op.{Op};
ghost use Rattle.blink_machine.specs.{IsUpdate};
ghost use Rattle.blink_live.specs.{IsWaiting};
ghost use Rattle.blink_generation.specs.declared.map.Session.{Session};
ghost use Rattle.blink_generation.specs.Changing.{HasChanged, IsAtRest};
ghost use Rattle.blink_generation.specs.Places.{IsMemberOf};
ghost use Rattle.blink_generation.specs.Sessions.{HasRoom, IsAnswered, IsSameBesideRoom, IsSessionOf, LacksRoom};
ghost use Rattle.blink_generation.specs.Starting.{HasStopped};

use crate::change::{aim, come_back};
use crate::map::{Map, Pending, Session, Stopped};
use crate::member::{Member, REST, UnderWay, next_mark};
use crate::steps::mark_place;
use crate::waiting::BATCH_ROWS;
use blink_batch::{Answer, Op};
use blink_live::{Changed, Live};
use blink_rows::Span;
use std::snapshot::Snapshot;

impl Map {
    /// Runs an operation that changes the map: an insertion, a deletion, a replacement, an exchange, or a deletion of an expected
    /// pointer. It answers as the operation does on a plain map (`Op`, `Answer`), and no other session changes the key between its test
    /// and its change. Where no other session has a latch that the operation wants, it ends at once.
    ///
    /// It stops where the session has fewer rows or page numbers at hand than the operation may need, and the pool can't give them: an
    /// insertion may need 44 rows and 22 page numbers, each other operation a row. Then it gives the session back, and has changed nothing,
    /// but for what the session has drawn. While rows of the session are on their way back, a later call may be let through
    /// (`Session::lacks_room_in_all`). An insertion stops only if its key is absent, which it looks up then; so the session may have seen
    /// more. The operation also stops where `advance` would give it back, after `tries` steps in vain, at least one. The call takes no
    /// memory, waits for nobody, and returns.
    pub fn start(&self, session: Session, op: Op, tries: u32) -> Result<(Session, Answer), Stopped>
        requires its_own { IsSessionOf self.now session }
        requires updates { IsUpdate op }
        requires fits { FitsWords op }
        ensures answered { IfOk result (λ ended. IsAnswered self.now op session ended.0 ended.1) }
        ensures stopped { IfErr result (HasStopped self.now op session) }
    {
        let begun = Snapshot::of(&session);
        let Session { mut member } = session;
        if !member.draw(&self.live, op) {
            return self.stop_for_room(Session { member }, op);
        }
        match member.start(&self.live, op, tries) {
            Ok((mut member, answer)) => {
                member.recycle(&self.live, BATCH_ROWS);
                Ok((Session { member }, answer))
            }
            Err(now) => Err(Stopped::Waits(Pending { now, begun })),
        }
    }

    // Gives a session back that lacks room for the operation since it was `before`, or answers all the same.
    fn stop_for_room(&self, session: Session, op: Op) -> Result<(Session, Answer), Stopped>
        requires its_own { IsSessionOf self.now session }
        ensures answered { IfOk result (λ ended. (before : Session) → IsSameBesideRoom before session
            → IsAnswered self.now op before ended.0 ended.1) }
        ensures stopped { IfErr result (λ stopped. (before : Session) → IsSameBesideRoom before session
            → LacksRoom op before session → HasStopped self.now op before stopped) }
    {
        let mut session = session;
        match self.answer_with_no_room(&mut session, op) {
            Some(answer) => Ok((session, answer)),
            None => Err(Stopped::Full(session)),
        }
    }
}

impl Member {
    // Runs an operation that changes the tree, or lets it rest where it has to wait.
    fn start(self, live: &Live, op: Op, tries: u32) -> Result<(Member, Answer), UnderWay>
        requires its_own { IsMemberOf live.now self }
        requires updates { IsUpdate op }
        requires fits { FitsWords op }
        requires room { HasRoom op self }
        ensures changed { IfOk result (λ ended. HasChanged live.now op self ended.0 ended.1) }
        ensures at_rest { IfErr result (IsAtRest live.now op self) }
        ensures waits { IfErr result (λ rests. IsWaiting rests.machine) }
    {
        let Member {
            mut seat,
            rows,
            pages,
            place,
            mut room,
            mut mark,
        } = self;
        mark_place(live, &mut seat, place, next_mark(&mut mark));
        aim(&mut room, op, &rows, &pages);
        match live.change_by(&mut seat, &mut room, op, tries) {
            Changed::Ended(answer) => {
                come_back(live, &mut seat, place);
                let member = Member {
                    seat,
                    rows: Span {
                        next: room.rows.next,
                        stop: rows.stop,
                    },
                    pages: Span {
                        next: room.pages.next,
                        stop: pages.stop,
                    },
                    place,
                    room,
                    mark,
                };
                Ok((member, answer))
            }
            Changed::Rests(resting) => {
                mark_place(live, &mut seat, place, REST);
                Err(UnderWay {
                    seat,
                    rows,
                    pages,
                    place,
                    machine: resting,
                    room,
                    mark,
                })
            }
        }
    }
}
