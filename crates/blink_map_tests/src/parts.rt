//! A map with many places has room for the sessions that are in use. An empty index has one page. Room for so many sessions is 256 page
//! numbers for each, a row for each of these and one more for a change, and 128 rows for each session.
ghost use Rattle.std.specs.Prelude.{All};
ghost use Rattle.blink_map.specs.{IsSessionOf};

use crate::same::{same, same_for};
use crate::shared::{apply, close, last};
use blink_batch::{Answer, Op};
use blink_map::{GrowingMap, Session};
use std::alloc::Global;
use std::process::Abort;
use std::sync::Wait;

// Each of the last sessions inserts a key. The keys are these.
fn insert_by_each<R: Wait + Abort>(
    rt: &R,
    alloc: Global,
    map: &GrowingMap,
    sessions: &mut Vec<Session>,
    keys: u64,
)
    requires its_own { All (IsSessionOf map.now) sessions.old.items }
    ensures its_own { All (IsSessionOf map.now) sessions.new.items }
{
    for key in 0..keys {
        let session = last(rt, map, sessions);
        let (_session, answer) = apply(rt, alloc, map, session, Op::Insert(key, key ^ 5));
        same_for(rt, &answer, &Ok(Answer::Inserted), &key);
    }
}

// 4 * 256, and 4 * (256 + 256 + 128)
#[test]
fn a_map_with_many_places_has_room_for_four_sessions(rt: HostRuntime) {
    let alloc = rt.alloc();
    let (map, _sessions) = GrowingMap::new(alloc, 256).expect(&rt, "no map");
    same(&rt, &map.try_room(1), &Ok((2_560, 1_024)));
}

// 3 * 256, and 3 * (256 + 256 + 128)
#[test]
fn a_map_with_few_places_has_room_for_all(rt: HostRuntime) {
    let alloc = rt.alloc();
    let (map, _sessions) = GrowingMap::new(alloc, 3).expect(&rt, "no map");
    same(&rt, &map.try_room(1), &Ok((1_920, 768)));
    same(&rt, &map.try_renew(alloc, None, 1), &Ok(()));
    same(&rt, &map.try_room(1), &Ok((1_920, 768)));
}

// Six sessions, and the one by which the map is renewed: 7 * 256, and 7 * (256 + 256 + 128). Nobody changes the next map, so the one after
// has room for four sessions again.
#[test]
fn a_renewed_map_has_room_for_the_sessions_that_made_changes(rt: HostRuntime) {
    let alloc = rt.alloc();
    let (map, mut sessions) = GrowingMap::new(alloc, 256).expect(&rt, "no map");
    insert_by_each(&rt, alloc, &map, &mut sessions, 6);
    same(&rt, &map.try_renew(alloc, None, 1), &Ok(()));
    same(&rt, &map.try_room(1), &Ok((4_480, 1_792)));
    same(&rt, &map.try_renew(alloc, None, 1), &Ok(()));
    same(&rt, &map.try_room(1), &Ok((2_560, 1_024)));
}

// The first map has 1,024 page numbers, and each session draws 22 at least, so it is full before 50 of them have begun.
#[test]
fn all_sessions_of_a_map_with_many_places_find_room(rt: HostRuntime) {
    let alloc = rt.alloc();
    let (map, mut sessions) = GrowingMap::new(alloc, 256).expect(&rt, "no map");
    insert_by_each(&rt, alloc, &map, &mut sessions, 256);
    same(&rt, &sessions.len(), &0);
    let index = close(&rt, alloc, map, sessions);
    same(&rt, &index.len(), &256);
    for key in 0..256 {
        same_for(&rt, &index.find(key), &Some(key ^ 5), &key);
    }
}
