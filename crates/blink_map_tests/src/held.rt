//! Sessions that are held: their calls wait for nobody, and hold back a renewal alone.
ghost use Rattle.std.specs.Prelude.{◌≡◌, All};
ghost use Rattle.blink_batch.specs.{FitsWords};
ghost use Rattle.blink_map.specs.{IsHeldOf, IsSessionOf, IsUpdate, map_at};

use crate::same::{given, same, same_for};
use crate::shared::{Single, close, hold, last};
use blink_batch::{Answer, Entry, Op};
use blink_map::{GrowError, GrowingMap, Held, Places, Session, StoppedHeld};
use std::alloc::Global;
use std::process::Abort;
use std::sync::Wait;

// A map, a session of it that is held, and one that is free.
#[derive(Drop)]
struct HeldOne {
    map: GrowingMap,
    held: Held,
    other: Session,
    ghost held_of: { IsHeldOf map held },
    ghost other_of: { IsSessionOf map other },
}

// The steps in vain after which an operation waits. No other thread is there, so none is in vain.
const TRIES: u32 = 1;

impl HeldOne {
    // A map in which 5 has pointer 50, and 9 has 90.
    fn new<R: Wait + Abort>(rt: &R, alloc: Global) -> HeldOne {
        let (map, mut sessions) = GrowingMap::new(alloc, 2).expect(rt, "no map");
        let mut other = last(rt, &map, &mut sessions);
        let one = last(rt, &map, &mut sessions);
        let answer = map.try_change(&mut other, Op::Insert(5, 50), TRIES);
        same(rt, &answer, &Some(Answer::Inserted));
        let answer = map.try_change(&mut other, Op::Insert(9, 90), TRIES);
        same(rt, &answer, &Some(Answer::Inserted));
        let held = hold(rt, &map, one);
        HeldOne { map, held, other }
    }

    // The held session's operation gives this.
    fn start(self, rt: &impl Abort, op: Op, expected: Answer) -> HeldOne
        requires { IsUpdate op × FitsWords op }
    {
        let HeldOne { map, held, other } = self;
        let (held, answer) = map.start(held, op, TRIES).ok().expect(rt, "stopped");
        same_for(rt, &answer, &expected, &op);
        HeldOne { map, held, other }
    }

    // The held session looks the key up, and finds this.
    fn find(&mut self, rt: &impl Abort, key: u64, expected: Option<u64>) {
        let HeldOne {
            map,
            held,
            other: _,
        } = self;
        let found = map.find_held(held, key);
        same_for(rt, &found, &expected, &key);
    }
}

const NONE: Entry = Entry { key: 0, pointer: 0 };

// The two entries of the map.
const FIVE: Entry = Entry {
    key: 5,
    pointer: 50,
};

const NINE: Entry = Entry {
    key: 9,
    pointer: 90,
};

#[test]
fn a_held_session_finds_as_often_as_it_likes(rt: HostRuntime) {
    let alloc = rt.alloc();
    let mut it = HeldOne::new(&rt, alloc);
    for _ in 0..100 {
        it.find(&rt, 5, Some(50));
        it.find(&rt, 6, None);
        it.find(&rt, 9, Some(90));
    }
}

#[test]
fn operations_of_a_held_session_answer(rt: HostRuntime) {
    let alloc = rt.alloc();
    let it = HeldOne::new(&rt, alloc);
    let it = it.start(&rt, Op::Insert(7, 70), Answer::Inserted);
    let it = it.start(&rt, Op::Insert(7, 71), Answer::Exists(70));
    let it = it.start(&rt, Op::Replace(7, 72), Answer::Replaced(70));
    let mut it = it.start(&rt, Op::Delete(5), Answer::Removed(50));
    it.find(&rt, 5, None);
    it.find(&rt, 7, Some(72));
    let HeldOne {
        map,
        held,
        mut other,
    } = it;
    same(&rt, &map.try_find(&mut other, 7, TRIES), &Ok(Some(72)));
    let mut session = map.release(held);
    same(&rt, &map.try_find(&mut session, 9, TRIES), &Ok(Some(90)));
    same(&rt, &map.try_find(&mut session, 5, TRIES), &Ok(None));
}

#[test]
fn operations_are_made_where_the_session_is(rt: HostRuntime) {
    let alloc = rt.alloc();
    let Single { map, mut session } = given(&rt, Single::new(&rt, alloc));
    let answer = map.try_change(&mut session, Op::Insert(5, 50), TRIES);
    same(&rt, &answer, &Some(Answer::Inserted));
    let mut held = hold(&rt, &map, session);
    let answer = map.try_change_held(&mut held, Op::Replace(5, 51), TRIES);
    same(&rt, &answer, &Some(Answer::Replaced(50)));
    same(&rt, &map.find_held(&mut held, 5), &Some(51));
    let mut session = map.release(held);
    same(&rt, &map.try_find(&mut session, 5, TRIES), &Ok(Some(51)));
}

#[test]
fn a_held_session_scans(rt: HostRuntime) {
    let alloc = rt.alloc();
    let HeldOne {
        map,
        mut held,
        other: _,
    } = HeldOne::new(&rt, alloc);
    let mut places = [NONE; 3];
    let scanned = map.scan_held(&mut held, 0, u64::MAX, &mut places);
    same(&rt, &scanned.filled, &2);
    same(&rt, &scanned.next, &None);
    same(&rt, &places[0], &FIVE);
    same(&rt, &places[1], &NINE);
    let scanned = map.scan_back_held(&mut held, 0, 8, &mut places);
    same(&rt, &scanned.filled, &1);
    same(&rt, &places[0], &FIVE);
}

#[test]
fn a_held_session_takes_a_snapshot(rt: HostRuntime) {
    let alloc = rt.alloc();
    let HeldOne {
        map,
        mut held,
        other: _,
    } = HeldOne::new(&rt, alloc);
    let entries = given(&rt, map.snapshot_held(alloc, &mut held, 6, 9, 1));
    let entries = entries.expect(&rt, "changed");
    same(&rt, &entries.len(), &1);
    let entry = entries.get(0).expect(&rt, "no entry");
    same(&rt, entry, &NINE);
}

#[test]
fn a_held_session_has_a_stock(rt: HostRuntime) {
    let alloc = rt.alloc();
    let it = HeldOne::new(&rt, alloc);
    same(&rt, &it.map.stock(&it.held).unwritten, &0);
    let it = it.start(&rt, Op::Insert(7, 70), Answer::Inserted);
    assert!(&rt; it.map.stock(&it.held).unwritten > 0);
}

// Inserts keys from 100 on, until one finds no room.
fn fill(rt: &impl Abort, map: &GrowingMap, held: Held) -> Held
    requires { IsHeldOf map.now held }
    ensures { IsHeldOf map.now result }
{
    let mut held = held;
    for key in 100..100_000 {
        match map.start(held, Op::Insert(key, key), TRIES) {
            Ok((after, answer)) => {
                same_for(rt, &answer, &Answer::Inserted, &key);
                held = after;
            }
            Err(StoppedHeld::Full(full)) => return full,
            Err(StoppedHeld::Waits(_)) => break,
        }
    }
    panic!(rt; "never full")
}

#[test]
fn a_held_session_is_full_and_another_holds_back_the_renewal(rt: HostRuntime) {
    let alloc = rt.alloc();
    let HeldOne { map, held, other } = HeldOne::new(&rt, alloc);
    let second = map.try_hold(other, 1).ok().expect(&rt, "not held");
    let held = fill(&rt, &map, held);
    let number = held.number();
    same(&rt, &number, &0);
    let session = map.release(held);
    // the other session is held
    same(
        &rt,
        &map.try_renew(alloc, Some(number), 2),
        &Err(GrowError::Busy),
    );
    let _other = map.release(second);
    same(&rt, &map.try_renew(alloc, Some(number), 2), &Ok(()));
    let held = map.try_hold(session, 1).ok().expect(&rt, "not held");
    same(&rt, &held.number(), &1);
    // the map that was full is gone
    let free = map.release(held);
    same(&rt, &map.try_renew(alloc, Some(number), 2), &Ok(()));
    let held = map.try_hold(free, 1).ok().expect(&rt, "not held");
    same(&rt, &held.number(), &1);
    let _free = map.release(held);
    let index = close(&rt, alloc, map, Vec::new(alloc));
    same(&rt, &index.find(5), &Some(50));
}

// A map with the places of its two sessions.
#[derive(Drop)]
struct Resting {
    map: GrowingMap,
    places: Places,
    ghost its_places: { map_at places ≡ map },
}

impl Resting {
    // Both sessions rest.
    fn new(rt: &impl Abort, alloc: Global) -> Resting {
        let (map, mut sessions) = GrowingMap::new(alloc, 2).expect(rt, "no map");
        let places = Places::new(alloc, &map).expect(rt, "no places");
        assert!(rt; places.join().is_none());
        let resting = Resting { map, places };
        resting.leave_all(&mut sessions);
        same(rt, &sessions.len(), &0);
        resting
    }

    fn leave_all(&self, sessions: &mut Vec<Session>)
        requires { All (IsSessionOf self.now.map) sessions.old.items }
    {
        self.places.leave_all(sessions);
    }

    fn leave(&self, session: Session)
        requires { IsSessionOf self.now.map session }
    {
        self.places.leave(session);
    }

    fn join(&self, rt: &impl Abort) -> Session
        ensures { IsSessionOf self.now.map result }
    {
        self.places.join().expect(rt, "no session")
    }

    // All sessions, which rest.
    fn gather(self, alloc: Global, rt: &impl Abort) -> (GrowingMap, Vec<Session>)
        ensures { All (IsSessionOf result.0) result.1.items }
    {
        let Resting { map, places } = self;
        let mut sessions = Vec::with_capacity(alloc, 2).expect(rt, "no memory");
        places.join_all(&mut sessions);
        (map, sessions)
    }
}

#[test]
fn sessions_rest_at_places(rt: HostRuntime) {
    let alloc = rt.alloc();
    let resting = Resting::new(&rt, alloc);
    let mut one = resting.join(&rt);
    let other = resting.join(&rt);
    assert!(&rt; resting.places.join().is_none());
    let answer = resting.map.try_change(&mut one, Op::Insert(3, 30), TRIES);
    same(&rt, &answer, &Some(Answer::Inserted));
    resting.leave(one);
    let mut again = resting.join(&rt);
    same(
        &rt,
        &resting.map.try_find(&mut again, 3, TRIES),
        &Ok(Some(30)),
    );
    resting.leave(again);
    resting.leave(other);
    let (map, sessions) = resting.gather(alloc, &rt);
    same(&rt, &sessions.len(), &2);
    let index = close(&rt, alloc, map, sessions);
    same(&rt, &index.find(3), &Some(30));
}
