//! A map with two sessions, whose calls have no condition: what is so of them is in the type.
ghost use Rattle.std.specs.Prelude.{◌≤◌, IfOk};
ghost use Rattle.blink_batch.specs.{FitsWords};
ghost use Rattle.blink_generation.specs.{IsPendingOf, IsSessionOf, IsUpdate};

use crate::same::{given, same_for};
use blink_batch::{Answer, Op};
use blink_generation::{Full, Map, Pending, Room, Session, Stopped};
use blink_index::Index;
use std::alloc::Global;
use std::process::Abort;
use std::sync::Wait;
use std::thread;

// A map, and two sessions of it.
#[derive(Drop)]
pub(crate) struct Two {
    pub(crate) map: Map,
    pub(crate) one: Session,
    pub(crate) other: Session,
    ghost ones: { IsSessionOf map one },
    ghost others: { IsSessionOf map other },
}

// Two sessions of a map, by facts that the prover meets one at a time.
fn pair_of(map: Map, one: Session, other: Session) -> Two
    requires ones { IsSessionOf map one }
    requires others { IsSessionOf map other }
{
    Two { map, one, other }
}

// Which of the two sessions is meant.
#[derive(Clone, Copy)]
pub(crate) enum Who {
    One,
    Other,
}

impl Two {
    // Over an empty index, with room for so many page numbers and rows.
    pub(crate) fn open(rt: &impl Abort, alloc: Global, room: (u32, u32)) -> Two {
        Two::over(rt, alloc, &given(rt, Index::new(alloc, 4)), room)
    }

    pub(crate) fn over(rt: &impl Abort, alloc: Global, index: &Index, room: (u32, u32)) -> Two {
        Two::in_parts(rt, alloc, index, room, 2)
    }

    // The same, where half of the rows are the sessions' in so many parts.
    pub(crate) fn in_parts(
        rt: &impl Abort,
        alloc: Global,
        index: &Index,
        room: (u32, u32),
        parts: u32,
    ) -> Two
        requires parts { 1 ≤ parts }
    {
        let (pages, rows) = room;
        let room = Room {
            pages,
            rows,
            sessions: 2,
        };
        let opened = Map::open_in_parts(alloc, index, room, parts);
        let (map, mut sessions) = opened.expect(rt, "no map");
        let other = sessions.pop().expect(rt, "no second session");
        let one = sessions.pop().expect(rt, "no session");
        pair_of(map, one, other)
    }

    // The session's operation ends at its first try, and gives this.
    pub(crate) fn call(
        self,
        rt: &impl Abort,
        who: Who,
        op: Op,
        expected: Result<Answer, Full>,
    ) -> Two {
        let Two { map, one, other } = self;
        match who {
            Who::One => {
                let one = call_alone(rt, &map, one, op, expected);
                pair_of(map, one, other)
            }
            Who::Other => {
                let other = call_alone(rt, &map, other, op, expected);
                pair_of(map, one, other)
            }
        }
    }

    // The session's operation, which is made where the session lies or given up, gives this.
    pub(crate) fn try_call(
        &mut self,
        rt: &impl Abort,
        who: Who,
        op: Op,
        expected: Result<Option<Answer>, Full>,
    ) {
        let Two { map, one, other } = self;
        let given = match who {
            Who::One => try_apply(map, one, op),
            Who::Other => try_apply(map, other, op),
        };
        same_for(rt, &given, &expected, &op);
    }

    // The first session inserts the keys from the first number up to the second, each with so many times the key.
    pub(crate) fn insert_each(self, rt: &impl Abort, keys: (u64, u64), times: u64) -> Two {
        let mut two = self;
        for key in keys.0..keys.1 {
            let op = Op::Insert(key, key.wrapping_mul(times));
            two = two.call(rt, Who::One, op, Ok(Answer::Inserted));
        }
        two
    }

    // It deletes them again.
    pub(crate) fn delete_each(self, rt: &impl Abort, keys: (u64, u64), times: u64) -> Two {
        let mut two = self;
        for key in keys.0..keys.1 {
            let removed = Answer::Removed(key.wrapping_mul(times));
            two = two.call(rt, Who::One, Op::Delete(key), Ok(removed));
        }
        two
    }

    // The first session and the second change places.
    pub(crate) fn turn(self) -> Two {
        let Two { map, one, other } = self;
        Two {
            map,
            one: other,
            other: one,
        }
    }

    // The first session tells the second.
    pub(crate) fn tell(&mut self) {
        let Two { map, one, other } = self;
        map.tell(one, other);
    }
}

// The operation, if it changes a map, or the key that it looks up.
fn change_of(op: Op) -> Result<Op, u64>
    ensures { IfOk result (λ op. IsUpdate op × FitsWords op) }
{
    match op {
        Op::Find(key) => Err(key),
        Op::Insert(key, pointer) => Ok(Op::Insert(key, pointer)),
        Op::Delete(key) => Ok(Op::Delete(key)),
        Op::Replace(key, pointer) => Ok(Op::Replace(key, pointer)),
        Op::Exchange(key, expected, pointer) => Ok(Op::Exchange(key, expected, pointer)),
        Op::DeleteExact(key, expected) => Ok(Op::DeleteExact(key, expected)),
    }
}

// Runs the operation by this session where it lies, or gives it up.
pub(crate) fn try_apply(map: &Map, session: &mut Session, op: Op) -> Result<Option<Answer>, Full>
    requires { IsSessionOf map.now session.old }
    ensures { IsSessionOf map.now session.new }
{
    match change_of(op) {
        Ok(op) => map.try_change(session, op, 1),
        Err(key) => Ok(Some(op.answer(map.find(session, key)))),
    }
}

// The session's operation gives this at its first try, since nobody else has a page.
fn call_alone(
    rt: &impl Abort,
    map: &Map,
    session: Session,
    op: Op,
    expected: Result<Answer, Full>,
) -> Session
    requires { IsSessionOf map.now session }
    ensures { IsSessionOf map.now result }
{
    let mut session = session;
    let (session, answer) = match change_of(op) {
        Ok(op) => change_alone(rt, map, session, op),
        Err(key) => {
            let answer = op.answer(map.find(&mut session, key));
            (session, Ok(answer))
        }
    };
    same_for(rt, &answer, &expected, &op);
    session
}

fn change_alone(
    rt: &impl Abort,
    map: &Map,
    session: Session,
    op: Op,
) -> (Session, Result<Answer, Full>)
    requires its_own { IsSessionOf map.now session }
    requires updates { IsUpdate op }
    requires fits { FitsWords op }
    ensures { IsSessionOf map.now result.0 }
{
    match map.start(session, op, 1) {
        Ok((session, answer)) => (session, Ok(answer)),
        Err(Stopped::Full(session)) => (session, Err(Full)),
        Err(Stopped::Waits(_)) => panic!(rt; "it waits for nobody"),
    }
}

// ---- where others change the map too

// Runs the operation, and waits for whatever it needs of others.
pub(crate) fn apply<R: Wait>(
    rt: &R,
    map: &Map,
    session: Session,
    op: Op,
) -> (Session, Result<Answer, Full>)
    requires { IsSessionOf map.now session }
    ensures { IsSessionOf map.now result.0 }
{
    let mut session = session;
    match change_of(op) {
        Ok(op) => change(rt, map, session, op),
        Err(key) => {
            let answer = op.answer(map.find(&mut session, key));
            (session, Ok(answer))
        }
    }
}

// It begins again where the session's rows are on their way back. `Full`, if they are too few in all.
fn change<R: Wait>(rt: &R, map: &Map, session: Session, op: Op) -> (Session, Result<Answer, Full>)
    requires its_own { IsSessionOf map.now session }
    requires updates { IsUpdate op }
    requires fits { FitsWords op }
    ensures { IsSessionOf map.now result.0 }
{
    let mut session = session;
    for _ in rt.forever() {
        match map.start(session, op, 1) {
            Ok((back, answer)) => return (back, Ok(answer)),
            Err(Stopped::Waits(pending)) => {
                let (back, answer) = to_end(rt, map, pending);
                return (back, Ok(answer));
            }
            Err(Stopped::Full(back)) => {
                if back.lacks_room_in_all(op) {
                    return (back, Err(Full));
                }
                session = back;
            }
        }
        thread::yield_now();
    }
    unreachable!()
}

// Takes the operation's steps to its end.
fn to_end<R: Wait>(rt: &R, map: &Map, pending: Pending) -> (Session, Answer)
    requires { IsPendingOf map.now pending }
    ensures { IsSessionOf map.now result.0 }
{
    let mut pending = pending;
    for _ in rt.forever() {
        match map.advance(pending, 1) {
            Ok(ended) => return ended,
            Err(waits) => pending = waits,
        }
        thread::yield_now();
    }
    unreachable!()
}

// The session's operation gives this.
pub(crate) fn call<R: Wait + Abort>(
    rt: &R,
    map: &Map,
    session: Session,
    op: Op,
    expected: Result<Answer, Full>,
) -> Session
    requires { IsSessionOf map.now session }
    ensures { IsSessionOf map.now result }
{
    let (session, answer) = apply(rt, map, session, op);
    same_for(rt, &answer, &expected, &op);
    session
}
