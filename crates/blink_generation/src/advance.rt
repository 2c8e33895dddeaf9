//! The next steps of an operation that waits as a `Pending`.
ghost use Rattle.std.specs.Prelude.{◌≡◌, IfErr, IfOk};
ghost use Rattle.blink_batch.specs.declared.Answer.{Answer};
ghost use Rattle.blink_batch.specs.declared.Op.{Op};
ghost use Rattle.blink_live.specs.declared.descent.Changed.{Changed};
ghost use Rattle.blink_live.specs.{IsWaiting};
ghost use Rattle.blink_generation.specs.declared.member.Member.{Member};
ghost use Rattle.blink_generation.specs.Changing.{HasBeside, HasChanged, HasComeOut, IsAtRest, IsAtWork};
ghost use Rattle.blink_generation.specs.Pendings.{GoesOn, IsPendingOf, op_of, session_of};
ghost use Rattle.blink_generation.specs.Places.{IsMemberOf};
ghost use Rattle.blink_generation.specs.Sessions.{IsAnswered};

use crate::change::come_back;
use crate::map::{Map, Pending, Session};
use crate::member::{Member, REST, UnderWay, next_mark};
use crate::steps::mark_place;
use crate::waiting::BATCH_ROWS;
use blink_batch::Answer;
use blink_live::{Changed, Live};
use blink_rows::Span;

impl Map {
    /// Takes the operation's next steps. It returns the session and the operation's answer once the operation has ended. It gives the
    /// operation back, whole and with its session, after `tries` steps in vain, at least one: another
    /// session had the latch of the page that it wants, or was about to make the root of a new level that it posts to. Then it holds no
    /// page's latch. The next call goes on from there. The call takes no memory, waits for nobody, and returns.
    pub fn advance(&self, pending: Pending, tries: u32) -> Result<(Session, Answer), Pending>
        requires its_own { IsPendingOf self.now pending }
        ensures answered { IfOk result
            (λ ended. IsAnswered self.now (op_of pending) (session_of pending) ended.0 ended.1) }
        ensures goes_on { IfErr result (GoesOn self.now pending) }
        ensures waits { IfErr result (λ pending. IsWaiting pending.now.machine) }
    {
        let Pending { mut now, begun } = pending;
        now.wake(&self.live);
        match self
            .live
            .resume(&mut now.seat, &mut now.room, &now.machine, tries)
        {
            Changed::Ended(answer) => {
                let mut member = now.end(&self.live);
                member.recycle(&self.live, BATCH_ROWS);
                let session = Session { member };
                Ok((session, answer))
            }
            Changed::Rests(resting) => {
                now.machine = resting;
                now.rest(&self.live);
                Err(Pending { now, begun })
            }
        }
    }
}

impl UnderWay {
    // The operation goes on: it may read rows again.
    fn wake(&mut self, live: &Live)
        requires at_rest { (op : Op) × (old : Member) × IsMemberOf live.now old
            × IsAtRest live.now op old self.old }
        ensures at_work { (op : Op) (old : Member) → IsMemberOf live.now old
            → IsAtRest live.now op old self.old
            → IsAtWork live.now op old self.new }
        ensures machine { self.new.machine ≡ self.old.machine }
    {
        let UnderWay {
            seat,
            rows: _,
            pages: _,
            place,
            machine: _,
            room: _,
            mark,
        } = self;
        mark_place(live, seat, *place, next_mark(mark));
    }

    // The operation rests: it reads no row, and holds no row back.
    fn rest(&mut self, live: &Live)
        requires at_work { (op : Op) × (old : Member) × IsMemberOf live.now old
            × IsAtWork live.now op old self.old }
        ensures at_rest { (op : Op) (old : Member) → IsMemberOf live.now old
            → IsAtWork live.now op old self.old
            → IsAtRest live.now op old self.new }
        ensures machine { self.new.machine ≡ self.old.machine }
    {
        mark_place(live, &mut self.seat, self.place, REST);
    }

    // The member when its operation has ended. What the operation hasn't used of its rows and page numbers is the member's again.
    fn end(self, live: &Live) -> Member
        requires ended { (op : Op) × (old : Member) × (answer : Answer) × IsMemberOf live.now old
            × HasComeOut live.now op old self.seat self.room (Changed.Ended answer)
            × HasBeside old self }
        ensures { (op : Op) (old : Member) (answer : Answer) → IsMemberOf live.now old
            → HasComeOut live.now op old self.seat self.room (Changed.Ended answer)
            → HasBeside old self
            → HasChanged live.now op old result answer }
    {
        let UnderWay {
            mut seat,
            rows,
            pages,
            place,
            machine: _rested,
            room,
            mark,
        } = self;
        come_back(live, &mut seat, place);
        Member {
            seat,
            rows: Span {
                next: room.rows.next,
                stop: rows.stop,
            },
            pages: Span {
                next: room.pages.next,
                stop: pages.stop,
            },
            place,
            room,
            mark,
        }
    }
}
