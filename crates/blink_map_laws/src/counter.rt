//! A counter that two threads raise.
ghost use Rattle.std.specs.Prelude.{◌≡◌, ◌+◌, ◌<◌, ℕ, Some, IfOk, OnErr};
ghost use Rattle.blink_batch.specs.{pointer_of};
ghost use Rattle.blink_index.specs.{map_of};
ghost use Rattle.blink_map.specs.{IsSameBesideSeen, IsSessionOf};
ghost use Rattle.blink_map_laws.specs.Counting.{HasRaised, IsRaiseTried, IsRaisedTo};

use crate::back::push;
use crate::calls::{TRIES, change, find};
use blink_batch::{Answer, Op};
use blink_index::Index;
use blink_map::{GrowError, GrowingMap, Session};
use std::alloc::Global;
use std::sync::Wait;
use std::thread;
use std::thread::{Threads, join};

/// Why a counter wasn't raised.
#[derive(Clone, Copy, Debug, PartialEq, Eq)]
pub enum NotRaised {
    /// The key is absent.
    Absent,
    /// Its pointer is the greatest `u64`.
    Greatest,
    /// The map refused the exchange.
    Refused(GrowError),
}

/// Opens a growing map over an index, lets two of its sessions raise a key's pointer, each in a thread of its own and as often as it's
/// told, and closes the map. One of them renews the map beside the other before it raises. In the closed index the key's pointer is the one
/// before and as much as both were told that they raised it.
pub fn count_by_two<R: Threads + Wait + Sync>(
    rt: &R,
    alloc: Global,
    index: &Index,
    places: u32,
    key: u64,
    times: (u64, u64),
) -> Result<(u64, u64, Index), GrowError>
    ensures { (first : ℕ) → pointer_of (map_of index.now) key ≡ Some first
        → IfOk result (λ done. pointer_of (map_of done.2) key ≡ Some (first + done.0 + done.1)) }
{
    let (map, mut sessions) = GrowingMap::open(alloc, index, places)?;
    let Some(one) = sessions.pop() else {
        return Err(GrowError::Sessions);
    };
    let Some(other) = sessions.pop() else {
        return Err(GrowError::Sessions);
    };
    let ((one, by_one), (other, by_other)) = both_raise(rt, alloc, &map, one, other, key, times);
    push(&mut sessions, other)?;
    push(&mut sessions, one)?;
    match map.close(alloc, sessions) {
        Ok(closed) => Ok((by_one, by_other, closed)),
        Err(unclosed) => Err(unclosed.refusal),
    }
}

/// Raises the pointer of a key by one, and returns the new one.
pub fn raise<R: Wait>(
    rt: &R,
    alloc: Global,
    map: &GrowingMap,
    session: Session,
    key: u64,
) -> (Session, Result<u64, NotRaised>)
    requires its_own { IsSessionOf map.now session }
    ensures raised { IfOk result.1 (IsRaisedTo map.now key session result.0) }
    ensures unchanged { OnErr result.1 (IsSameBesideSeen session result.0) }
{
    let mut session = session;
    for _ in rt.forever() {
        let (then, raised) = try_raise(rt, alloc, map, session, key);
        if let Some(raised) = raised {
            return (then, raised);
        }
        session = then;
        thread::yield_now();
    }
    unreachable!()
}

// `None`, if the pointer was another one when it was to be exchanged.
fn try_raise<R: Wait>(
    rt: &R,
    alloc: Global,
    map: &GrowingMap,
    session: Session,
    key: u64,
) -> (Session, Option<Result<u64, NotRaised>>)
    requires its_own { IsSessionOf map.now session }
    ensures { IsRaiseTried map.now key session result.0 result.1 }
{
    let mut session = session;
    let Some(there) = find(rt, map, &mut session, key) else {
        return (session, Some(Err(NotRaised::Absent)));
    };
    if there == u64::MAX {
        return (session, Some(Err(NotRaised::Greatest)));
    }
    raise_from(rt, alloc, map, session, key, there)
}

// `None`, if the pointer isn't this one any more.
fn raise_from<R: Wait>(
    rt: &R,
    alloc: Global,
    map: &GrowingMap,
    session: Session,
    key: u64,
    there: u64,
) -> (Session, Option<Result<u64, NotRaised>>)
    requires its_own { IsSessionOf map.now session }
    requires below { there < u64.MAX }
    ensures { IsRaiseTried map.now key session result.0 result.1 }
{
    let (session, outcome) = change(rt, alloc, map, session, Op::Exchange(key, there, there + 1));
    match outcome {
        Ok(answer) => match answer {
            Answer::Replaced(_) => (session, Some(Ok(there + 1))),
            _ => (session, None),
        },
        Err(refusal) => (session, Some(Err(NotRaised::Refused(refusal)))),
    }
}

/// Raises the pointer of a key `times` times, and returns how often it did.
pub fn raise_times<R: Wait>(
    rt: &R,
    alloc: Global,
    map: &GrowingMap,
    session: Session,
    key: u64,
    times: u64,
) -> (Session, u64)
    requires its_own { IsSessionOf map.now session }
    ensures { HasRaised map.now key result.1 session result.0 }
{
    let mut session = session;
    for done in 0..times {
        let (then, raised) = raise(rt, alloc, map, session, key);
        session = then;
        match raised {
            Ok(_) => {}
            Err(_) => return (session, done),
        }
    }
    (session, times)
}

// The same, and the map is renewed before. Nothing rests on it whether it was.
fn renew_and_raise<R: Wait>(
    rt: &R,
    alloc: Global,
    map: &GrowingMap,
    session: Session,
    key: u64,
    times: u64,
) -> (Session, u64)
    requires its_own { IsSessionOf map.now session }
    ensures { HasRaised map.now key result.1 session result.0 }
{
    let _outcome = map.try_renew_by(alloc, &session, None, TRIES);
    raise_times(rt, alloc, map, session, key, times)
}

// The one session raises in a thread of its own, and the other, which renews the map first, in this one. Each comes back with how often it did.
fn both_raise<R: Threads + Wait + Sync>(
    rt: &R,
    alloc: Global,
    map: &GrowingMap,
    one: Session,
    other: Session,
    key: u64,
    times: (u64, u64),
) -> ((Session, u64), (Session, u64))
    requires ones { IsSessionOf map.now one }
    requires others { IsSessionOf map.now other }
    ensures ones { HasRaised map.now key result.0.1 one result.0.0 }
    ensures others { HasRaised map.now key result.1.1 other result.1.0 }
{
    join(
        rt,
        || raise_times(rt, alloc, map, one, key, times.0),
        || renew_and_raise(rt, alloc, map, other, key, times.1),
    )
}
