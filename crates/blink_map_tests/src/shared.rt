//! A growing map and one session, whose calls have no condition: what is so of them is in the type.
ghost use Rattle.std.specs.Prelude.{All, IfOk};
ghost use Rattle.blink_batch.specs.{FitsWords};
ghost use Rattle.blink_map.specs.{IsHeldOf, IsPendingOf, IsSessionOf, IsUpdate};

use crate::same::{given, same_for};
use blink_batch::{Answer, Entry, Op};
use blink_index::Index;
use blink_map::{GrowError, GrowingMap, Held, PendingHeld, Session, StoppedHeld};
use std::alloc::Global;
use std::process::Abort;
use std::sync::Wait;
use std::thread;

// A map, and one of its sessions.
#[derive(Drop)]
pub(crate) struct Single {
    pub(crate) map: GrowingMap,
    pub(crate) session: Session,
    ghost its_own: { IsSessionOf map session },
}

impl Single {
    // An empty map with this session alone; a refusal, if memory was refused.
    pub(crate) fn new(rt: &impl Abort, alloc: Global) -> Result<Single, GrowError> {
        Single::among(rt, alloc, 1)
    }

    // An empty map with so many sessions, of which the others do nothing.
    pub(crate) fn among(
        rt: &impl Abort,
        alloc: Global,
        sessions: u32,
    ) -> Result<Single, GrowError> {
        Single::of(rt, GrowingMap::new(alloc, sessions))
    }

    // The last session of a map that was opened, of which the others do nothing.
    pub(crate) fn of(
        rt: &impl Abort,
        opened: Result<(GrowingMap, Vec<Session>), GrowError>,
    ) -> Result<Single, GrowError>
        requires { IfOk opened (λ opened. All (IsSessionOf opened.0) opened.1.items) }
    {
        let (map, mut sessions) = match opened {
            Ok(opened) => opened,
            Err(refusal) => return Err(refusal),
        };
        let session = last(rt, &map, &mut sessions);
        Ok(Single { map, session })
    }

    // Runs the operation.
    pub(crate) fn apply<R: Wait>(
        self,
        rt: &R,
        alloc: Global,
        op: Op,
    ) -> (Single, Result<Answer, GrowError>) {
        let Single { map, session } = self;
        let (session, outcome) = apply(rt, alloc, &map, session, op);
        (Single { map, session }, outcome)
    }

    // The operation gives this.
    pub(crate) fn call<R: Wait + Abort>(
        self,
        rt: &R,
        alloc: Global,
        op: Op,
        expected: Answer,
    ) -> Single {
        let (single, answer) = self.apply(rt, alloc, op);
        same_for(rt, &answer, &Ok(expected), &op);
        single
    }

    // The operation gives this, by the session while it is held.
    pub(crate) fn call_held<R: Wait + Abort>(
        self,
        rt: &R,
        alloc: Global,
        op: Op,
        expected: Answer,
    ) -> Single {
        let Single { map, session } = self;
        let (session, answer) = apply_held(rt, alloc, &map, session, op);
        same_for(rt, &answer, &Ok(expected), &op);
        Single { map, session }
    }

    // Renews the map.
    pub(crate) fn renew(&self, alloc: Global) -> Result<(), GrowError> {
        self.map.try_renew(alloc, None, LOOKS)
    }

    // The number of the current map: how often there was a renewal.
    pub(crate) fn number<R: Wait>(self, rt: &R) -> (Single, u64) {
        let Single { map, session } = self;
        let held = hold(rt, &map, session);
        let number = held.number();
        let session = map.release(held);
        (Single { map, session }, number)
    }

    // Renews the map where that is due after removals.
    pub(crate) fn renew_if_worn(&self, alloc: Global) {
        self.map.renew_if_worn_by(alloc, &self.session, LOOKS);
    }

    // The least key.
    pub(crate) fn first(&mut self, rt: &impl Abort) -> Option<u64> {
        let Single { map, session } = self;
        let mut into = [Entry { key: 0, pointer: 0 }];
        let scanned = given(rt, map.try_scan(session, (0, u64::MAX), 1, &mut into));
        if scanned.filled == 0 {
            return None;
        }
        Some(into[0].key)
    }

    // Closes the map with the session; without it, if memory for the list is refused.
    pub(crate) fn close(self, rt: &impl Abort, alloc: Global) -> Index {
        let Single { map, session } = self;
        match Vec::with_capacity(alloc, 1) {
            Ok(mut sessions) => {
                sessions.push_reserved(session);
                close(rt, alloc, map, sessions)
            }
            Err(_) => close(rt, alloc, map, Vec::new(alloc)),
        }
    }
}

// The last of these sessions.
pub(crate) fn last(rt: &impl Abort, map: &GrowingMap, sessions: &mut Vec<Session>) -> Session
    requires its_own { All (IsSessionOf map.now) sessions.old.items }
    ensures its_own { IsSessionOf map.now result }
    ensures others { All (IsSessionOf map.now) sessions.new.items }
{
    let _map = map;
    sessions.pop().expect(rt, "no session")
}

// Closes the map; after a refusal the call is made again.
pub(crate) fn close(
    rt: &impl Abort,
    alloc: Global,
    map: GrowingMap,
    sessions: Vec<Session>,
) -> Index
    requires { All (IsSessionOf map) sessions.items }
{
    match map.close(alloc, sessions) {
        Ok(index) => index,
        Err(unclosed) => {
            same_for(rt, &unclosed.refusal, &GrowError::OutOfMemory, &"close");
            let again = unclosed.map.close(alloc, unclosed.sessions).ok();
            again.expect(rt, "not closed")
        }
    }
}

// The operation, if it changes a map, or the key that it looks up.
fn change_of(op: Op) -> Result<Op, u64>
    ensures { IfOk result (λ op. IsUpdate op × FitsWords op) }
{
    match op {
        Op::Find(key) => Err(key),
        Op::Insert(key, pointer) => Ok(Op::Insert(key, pointer)),
        Op::Delete(key) => Ok(Op::Delete(key)),
        Op::Replace(key, pointer) => Ok(Op::Replace(key, pointer)),
        Op::Exchange(key, expected, pointer) => Ok(Op::Exchange(key, expected, pointer)),
        Op::DeleteExact(key, expected) => Ok(Op::DeleteExact(key, expected)),
    }
}

// How often a renewal looks for a session that another thread has.
const LOOKS: u32 = 1_000;

// Runs the operation where the session lies, if it can be made there, and else while the session is held. After a removal the map is renewed
// where that is due.
pub(crate) fn apply<R: Wait>(
    rt: &R,
    alloc: Global,
    map: &GrowingMap,
    session: Session,
    op: Op,
) -> (Session, Result<Answer, GrowError>)
    requires { IsSessionOf map.now session }
    ensures { IsSessionOf map.now result.0 }
{
    let mut session = session;
    match change_of(op) {
        Ok(op) => change(rt, alloc, map, session, op),
        Err(key) => {
            let found = find(rt, map, &mut session, key);
            (session, Ok(op.answer(found)))
        }
    }
}

fn change<R: Wait>(
    rt: &R,
    alloc: Global,
    map: &GrowingMap,
    session: Session,
    op: Op,
) -> (Session, Result<Answer, GrowError>)
    requires its_own { IsSessionOf map.now session }
    requires updates { IsUpdate op }
    requires fits { FitsWords op }
    ensures { IsSessionOf map.now result.0 }
{
    let mut session = session;
    let (session, outcome) = match map.try_change(&mut session, op, 1) {
        Some(answer) => (session, Ok(answer)),
        None => change_held(rt, alloc, map, session, op),
    };
    if let Ok(Answer::Removed(_)) = outcome {
        map.renew_if_worn_by(alloc, &session, LOOKS);
    }
    (session, outcome)
}

// Looks the key up, once no renewal gathers the sessions.
pub(crate) fn find<R: Wait>(
    rt: &R,
    map: &GrowingMap,
    session: &mut Session,
    key: u64,
) -> Option<u64>
    requires { IsSessionOf map.now session.old }
    ensures { IsSessionOf map.now session.new }
{
    for _ in rt.forever() {
        if let Ok(found) = map.try_find(session, key, 1) {
            return found;
        }
        thread::yield_now();
    }
    unreachable!()
}

// Runs the operation while the session is held.
pub(crate) fn apply_held<R: Wait>(
    rt: &R,
    alloc: Global,
    map: &GrowingMap,
    session: Session,
    op: Op,
) -> (Session, Result<Answer, GrowError>)
    requires { IsSessionOf map.now session }
    ensures { IsSessionOf map.now result.0 }
{
    match change_of(op) {
        Ok(op) => change_held(rt, alloc, map, session, op),
        Err(key) => {
            let mut held = hold(rt, map, session);
            let answer = op.answer(map.find_held(&mut held, key));
            (map.release(held), Ok(answer))
        }
    }
}

// Where the map is full, the session is released, and the map renewed. A refusal of that is the operation's, but `Busy`.
fn change_held<R: Wait>(
    rt: &R,
    alloc: Global,
    map: &GrowingMap,
    session: Session,
    op: Op,
) -> (Session, Result<Answer, GrowError>)
    requires its_own { IsSessionOf map.now session }
    requires updates { IsUpdate op }
    requires fits { FitsWords op }
    ensures { IsSessionOf map.now result.0 }
{
    let mut session = session;
    for _ in rt.forever() {
        let (then, outcome) = change_once(rt, alloc, map, session, op);
        if let Some(outcome) = outcome {
            return (then, outcome);
        }
        session = then;
    }
    unreachable!()
}

// `None`, if the map was full: it is renewed, or couldn't be for now.
fn change_once<R: Wait>(
    rt: &R,
    alloc: Global,
    map: &GrowingMap,
    session: Session,
    op: Op,
) -> (Session, Option<Result<Answer, GrowError>>)
    requires its_own { IsSessionOf map.now session }
    requires updates { IsUpdate op }
    requires fits { FitsWords op }
    ensures { IsSessionOf map.now result.0 }
{
    let held = hold(rt, map, session);
    let number = held.number();
    let (held, answer) = start(rt, map, held, op);
    let session = map.release(held);
    if let Some(answer) = answer {
        return (session, Some(Ok(answer)));
    }
    match map.try_renew_by(alloc, &session, Some(number), LOOKS) {
        Ok(()) | Err(GrowError::Busy) => (session, None),
        Err(refusal) => (session, Some(Err(refusal))),
    }
}

// The held session's operation, to its end; no answer, if the map is full.
fn start<R: Wait>(rt: &R, map: &GrowingMap, held: Held, op: Op) -> (Held, Option<Answer>)
    requires its_own { IsHeldOf map.now held }
    requires updates { IsUpdate op }
    requires fits { FitsWords op }
    ensures { IsHeldOf map.now result.0 }
{
    match map.start(held, op, 1) {
        Ok((held, answer)) => (held, Some(answer)),
        Err(StoppedHeld::Waits(pending)) => {
            let (held, answer) = to_end(rt, map, pending);
            (held, Some(answer))
        }
        Err(StoppedHeld::Full(held)) => (held, None),
    }
}

// Holds the session, once nobody renews the map.
pub(crate) fn hold<R: Wait>(rt: &R, map: &GrowingMap, session: Session) -> Held
    requires { IsSessionOf map.now session }
    ensures { IsHeldOf map.now result }
{
    let mut session = session;
    for _ in rt.forever() {
        match map.try_hold(session, 1) {
            Ok(held) => return held,
            Err(free) => session = free,
        }
        thread::yield_now();
    }
    unreachable!()
}

fn to_end<R: Wait>(rt: &R, map: &GrowingMap, pending: PendingHeld) -> (Held, Answer)
    requires { IsPendingOf map.now pending }
    ensures { IsHeldOf map.now result.0 }
{
    let mut pending = pending;
    for _ in rt.forever() {
        match map.advance(pending, 1) {
            Ok(ended) => return ended,
            Err(waits) => pending = waits,
        }
        thread::yield_now();
    }
    unreachable!()
}

// An empty map, and its two sessions.
pub(crate) fn two(rt: &impl Abort, alloc: Global) -> (GrowingMap, Session, Session)
    ensures ones { IsSessionOf result.0 result.1 }
    ensures others { IsSessionOf result.0 result.2 }
{
    let (map, mut sessions) = GrowingMap::new(alloc, 2).expect(rt, "no map");
    let other = sessions.pop().expect(rt, "no second session");
    let one = sessions.pop().expect(rt, "no session");
    (map, one, other)
}
