//! The calls of a map that wait for nobody, made again and again until they are done, as the library makes them.
ghost use Rattle.std.specs.Prelude.{◌≡◌, IfOk, OnErr};
ghost use mathlib.Core.List.{IsPrefix};
ghost use Rattle.blink_batch.specs.{FitsWords, pointer_of};
ghost use Rattle.blink_live.specs.{after};
ghost use Rattle.blink_map.specs.{IsAnswered, IsAnsweredHeld, IsPendingOf, IsSameBesideSeen, IsSessionOf, IsUpdate, held_of, op_of, opening_of, seen_by};
ghost use Rattle.blink_map_laws.specs.Calls.{IsChangeTried};

use blink_batch::{Answer, Op};
use blink_map::{GrowError, GrowingMap, Held, PendingHeld, Session, StoppedHeld};
use std::alloc::Global;
use std::sync::Wait;
use std::thread;

// How often a call looks, or tries, before it gives its thread's turn away.
pub(crate) const TRIES: u32 = 64;

/// Looks up a key.
pub fn find<R: Wait>(rt: &R, map: &GrowingMap, session: &mut Session, key: u64) -> Option<u64>
    requires its_own { IsSessionOf map.now session.old }
    ensures state { result ≡ after (pointer_of (opening_of map.now)) (seen_by session.new) key }
    ensures same { IsSameBesideSeen session.old session.new }
{
    for _ in rt.forever() {
        if let Ok(shown) = map.try_find(session, key, TRIES) {
            return shown;
        }
        thread::yield_now();
    }
    unreachable!()
}

/// Tells session `to` what session `from` has seen.
pub fn tell<R: Wait>(rt: &R, map: &GrowingMap, from: &mut Session, to: &mut Session)
    requires from_its_own { IsSessionOf map.now from.old }
    requires to_its_own { IsSessionOf map.now to.old }
    ensures told { IsPrefix (seen_by from.old) (seen_by to.new) }
    ensures to { IsSameBesideSeen to.old to.new }
    ensures from { IsSameBesideSeen from.old from.new }
{
    for _ in rt.forever() {
        if let Ok(()) = map.try_tell(from, to, TRIES) {
            return;
        }
        thread::yield_now();
    }
    unreachable!()
}

/// Runs an operation that changes the map, by a session that is taken and given back. Where the session finds no room, the call renews the
/// map.
///
/// The call refuses as a renewal does (`GrowingMap::try_renew_by`), but never with `Busy`. Then it changes nothing, though the session may
/// have seen more.
pub fn change<R: Wait>(
    rt: &R,
    alloc: Global,
    map: &GrowingMap,
    session: Session,
    op: Op,
) -> (Session, Result<Answer, GrowError>)
    requires its_own { IsSessionOf map.now session }
    requires updates { IsUpdate op }
    requires fits { FitsWords op }
    ensures answered { IfOk result.1 (IsAnswered map.now op session result.0) }
    ensures unchanged { OnErr result.1 (IsSameBesideSeen session result.0) }
{
    let mut session = session;
    for _ in rt.forever() {
        let (then, outcome) = change_once(rt, alloc, map, session, op);
        if let Some(outcome) = outcome {
            return (then, outcome);
        }
        session = then;
        thread::yield_now();
    }
    unreachable!()
}

// Runs an operation in the current map, at once if it meets nobody. `None`, if it is to be made again: the session was to be gathered, or the map
// was full, and has been renewed.
fn change_once<R: Wait>(
    rt: &R,
    alloc: Global,
    map: &GrowingMap,
    session: Session,
    op: Op,
) -> (Session, Option<Result<Answer, GrowError>>)
    requires its_own { IsSessionOf map.now session }
    requires updates { IsUpdate op }
    requires fits { FitsWords op }
    ensures { IsChangeTried map.now op session result.0 result.1 }
{
    let mut session = session;
    if let Some(answer) = map.try_change(&mut session, op, TRIES) {
        return (session, Some(Ok(answer)));
    }
    let (session, outcome) = start(rt, map, session, op);
    match outcome {
        Ok(answer) => (session, Some(Ok(answer))),
        Err(None) => (session, None),
        Err(Some(full)) => match map.try_renew_by(alloc, &session, Some(full), TRIES) {
            Ok(()) | Err(GrowError::Busy) => (session, None),
            Err(refusal) => (session, Some(Err(refusal))),
        },
    }
}

// Runs an operation in the current map by all its steps. `Err`, with the map's number, if the session lacks room for it there; with none, if it
// was to be gathered.
fn start<R: Wait>(
    rt: &R,
    map: &GrowingMap,
    session: Session,
    op: Op,
) -> (Session, Result<Answer, Option<u64>>)
    requires its_own { IsSessionOf map.now session }
    requires updates { IsUpdate op }
    requires fits { FitsWords op }
    ensures answered { IfOk result.1 (IsAnswered map.now op session result.0) }
    ensures unchanged { OnErr result.1 (IsSameBesideSeen session result.0) }
{
    let held = match map.try_hold(session, TRIES) {
        Ok(held) => held,
        Err(session) => return (session, Err(None)),
    };
    match map.start(held, op, TRIES) {
        Ok((held, answer)) => (map.release(held), Ok(answer)),
        Err(StoppedHeld::Waits(pending)) => {
            let (held, answer) = advance(rt, map, pending);
            (map.release(held), Ok(answer))
        }
        Err(StoppedHeld::Full(held)) => {
            let number = held.number();
            (map.release(held), Err(Some(number)))
        }
    }
}

// Takes the steps of an operation that waits, up to its end.
fn advance<R: Wait>(rt: &R, map: &GrowingMap, pending: PendingHeld) -> (Held, Answer)
    requires its_own { IsPendingOf map.now pending }
    ensures { IsAnsweredHeld map.now (op_of pending) (held_of pending) result.0 result.1 }
{
    let mut pending = pending;
    for _ in rt.forever() {
        match map.advance(pending, TRIES) {
            Ok(ended) => return ended,
            Err(waits) => pending = waits,
        }
        thread::yield_now();
    }
    unreachable!()
}
