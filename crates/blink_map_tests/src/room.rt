//! A room that its user chooses for a map: one that stays fixed, and one for the first changes.
use crate::same::{given, same, same_for};
use crate::shared::{Single, hold};
use blink_batch::{Answer, Op};
use blink_index::Index;
use blink_map::{GrowError, GrowingMap, Room};
use std::alloc::Global;
use std::process::Abort;
use std::sync::Wait;

// An empty map whose pages have 32 entries, and which has this room for one session.
fn with_room(rt: &impl Abort, alloc: Global, pages: u32, rows: u32) -> Result<Single, GrowError> {
    let empty = given(rt, Index::new(alloc, 32));
    let room = Room {
        pages,
        rows,
        sessions: 1,
    };
    Single::of(rt, GrowingMap::open_with_room(alloc, &empty, room))
}

// The same, and its room stays fixed.
fn with_fixed_room(
    rt: &impl Abort,
    alloc: Global,
    pages: u32,
    rows: u32,
) -> Result<Single, GrowError> {
    let empty = given(rt, Index::new(alloc, 32));
    let room = Room {
        pages,
        rows,
        sessions: 1,
    };
    Single::of(rt, GrowingMap::open_fixed(alloc, &empty, room))
}

// Inserts keys from 0 on, until the map is full, and returns how many went in.
fn fill<R: Wait + Abort>(rt: &R, alloc: Global, map: Single) -> (Single, u64) {
    let mut map = map;
    for key in 0..2_000 {
        let (then, answer) = map.apply(rt, alloc, Op::Insert(key, key ^ 5));
        map = then;
        if answer == Err(GrowError::Full) {
            return (map, key);
        }
        same_for(rt, &answer, &Ok(Answer::Inserted), &key);
    }
    panic!(rt; "never full")
}

// Of 40 page numbers an insertion has to have 22, so 18 are used at least: each but a few of a new leaf, which is split off after 16
// insertions or more. The 41 pages have no more than 32 entries each.
#[test]
fn a_map_whose_room_is_fixed_is_full_and_goes_on(rt: HostRuntime) {
    let alloc = rt.alloc();
    let map = given(&rt, with_fixed_room(&rt, alloc, 40, 400));
    let (map, count) = fill(&rt, alloc, map);
    assert!(&rt; (200..1_312).contains(&count));
    let map = map.call(&rt, alloc, Op::Find(count), Answer::Absent);
    let map = map.call(&rt, alloc, Op::Find(7), Answer::Found(7 ^ 5));
    let map = map.call(&rt, alloc, Op::Replace(8, 80), Answer::Replaced(8 ^ 5));
    let map = map.call(&rt, alloc, Op::Exchange(8, 80, 81), Answer::Replaced(80));
    let map = map.call(&rt, alloc, Op::Delete(9), Answer::Removed(9 ^ 5));
    // a removal brings no page number back
    let (map, answer) = map.apply(&rt, alloc, Op::Insert(9, 90));
    same(&rt, &answer, &Err(GrowError::Full));
    let (map, number) = map.number(&rt);
    same(&rt, &number, &0);
    let index = map.close(&rt, alloc);
    same(&rt, &index.len(), &(count as usize - 1));
    for key in 0..count {
        let expected = match key {
            8 => Some(81),
            9 => None,
            _ => Some(key ^ 5),
        };
        same_for(&rt, &index.find(key), &expected, &key);
    }
}

#[test]
fn a_map_whose_room_is_fixed_is_never_renewed(rt: HostRuntime) {
    let alloc = rt.alloc();
    let map = given(&rt, with_fixed_room(&rt, alloc, 40, 400));
    let full = Err(GrowError::Full);
    same(&rt, &map.renew(alloc), &full);
    let (map, _count) = fill(&rt, alloc, map);
    same(&rt, &map.renew(alloc), &full);
    same(&rt, &map.map.try_renew(alloc, Some(0), 2), &full);
    same(&rt, &map.map.try_renew_at(alloc, 0, Some(1), 2), &full);
    let (map, number) = map.number(&rt);
    same(&rt, &number, &0);
    let index = map.close(&rt, alloc);
    same(&rt, &index.find(0), &Some(5));
}

// So many ascending keys fill 375 leaves with 16 entries each, beside 25 pages above them: one above each 16, and the root.
const MANY: u64 = 6_000;

fn insert_many<R: Wait + Abort>(rt: &R, alloc: Global, map: Single) -> Single {
    let mut map = map;
    for key in 0..MANY {
        map = map.call(rt, alloc, Op::Insert(key, 7), Answer::Inserted);
    }
    map
}

// A map that grows is renewed after so many removals.
#[test]
fn a_map_whose_room_is_fixed_stays_after_many_removals(rt: HostRuntime) {
    let alloc = rt.alloc();
    let map = given(&rt, with_fixed_room(&rt, alloc, 500, 1_400));
    let mut map = insert_many(&rt, alloc, map);
    for key in 0..MANY {
        map = map.call(&rt, alloc, Op::Delete(key), Answer::Removed(7));
    }
    map.renew_if_worn(alloc);
    let (_map, number) = map.number(&rt);
    same(&rt, &number, &0);
}

#[test]
fn a_map_with_enough_room_is_not_renewed(rt: HostRuntime) {
    let alloc = rt.alloc();
    let map = given(&rt, with_room(&rt, alloc, 500, 1_400));
    let (map, number) = insert_many(&rt, alloc, map).number(&rt);
    same(&rt, &number, &0);
    let index = map.close(&rt, alloc);
    same(&rt, &index.len(), &6_000);
    same(&rt, &index.find(5_999), &Some(7));
}

#[test]
fn a_map_with_too_little_room_grows(rt: HostRuntime) {
    let alloc = rt.alloc();
    let map = insert_many(&rt, alloc, given(&rt, with_room(&rt, alloc, 40, 400)));
    same(&rt, &map.renew(alloc), &Ok(()));
    let (map, number) = map.number(&rt);
    assert!(&rt; number > 1);
    let index = map.close(&rt, alloc);
    same(&rt, &index.len(), &6_000);
    same(&rt, &index.find(5_999), &Some(7));
}

// The refusal of a room over an index of one page.
fn refusal_of(rt: &impl Abort, alloc: Global, room: Room, fixed: bool) -> Option<GrowError> {
    let empty = given(rt, Index::new(alloc, 32));
    let opened = if fixed {
        GrowingMap::open_fixed(alloc, &empty, room)
    } else {
        GrowingMap::open_with_room(alloc, &empty, room)
    };
    opened.err()
}

// A map has 1 to 256 sessions, and 1,048,575 page numbers in all.
#[test]
fn a_room_that_no_map_has_is_refused(rt: HostRuntime) {
    let alloc = rt.alloc();
    for fixed in [false, true] {
        for sessions in [0, 257] {
            let room = Room {
                pages: 100,
                rows: 100,
                sessions,
            };
            let refusal = refusal_of(&rt, alloc, room, fixed);
            same_for(&rt, &refusal, &Some(GrowError::Sessions), &sessions);
        }
        let room = Room {
            pages: 1_048_575,
            rows: 100,
            sessions: 1,
        };
        let refusal = refusal_of(&rt, alloc, room, fixed);
        same(&rt, &refusal, &Some(GrowError::TooLarge));
    }
}

#[test]
fn a_map_tells_what_its_pool_has(rt: HostRuntime) {
    let alloc = rt.alloc();
    let Single { map, session } = given(&rt, with_fixed_room(&rt, alloc, 40, 400));
    same(&rt, &map.try_room(0), &Ok((400, 40)));
    let held = hold(&rt, &map, session);
    same(&rt, &map.try_room(3), &Err(GrowError::Busy));
    let _session = map.release(held);
    same(&rt, &map.try_room(1), &Ok((400, 40)));
}
