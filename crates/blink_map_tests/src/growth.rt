//! A map by one thread, which has to be renewed again and again.
use crate::same::{given, same};
use crate::shared::Single;
use blink_batch::{Answer, Op, Plain};
use std::alloc::Global;
use std::process::Abort;
use std::sync::Wait;

// The number after this one in a fixed sequence that looks like chance.
fn next(drawn: u64) -> u64 {
    drawn
        .wrapping_mul(6_364_136_223_846_793_005)
        .wrapping_add(1_442_695_040_888_963_407)
}

const KEYS: u64 = 40_000;

// Few pointers, so that an operation that expects one often finds it.
const POINTERS: u64 = 3;

// The operation that a number stands for: of its high bits, which look most like chance. Half of them are insertions.
fn operation(drawn: u64) -> Op {
    let key = (drawn >> 32) % KEYS;
    let pointer = (drawn >> 24) % POINTERS;
    match drawn >> 60 {
        0 => Op::Find(key),
        1 => Op::Delete(key),
        2 => Op::DeleteExact(key, pointer),
        3 => Op::Replace(key, pointer),
        4 | 5 => Op::Exchange(key, pointer, (drawn >> 28) % POINTERS),
        _ => Op::Insert(key, pointer),
    }
}

// An empty map has 256 page numbers for changes. In the end the entries need over 600 pages.
#[test]
fn a_map_that_grows_answers_as_the_plain_map(rt: HostRuntime) {
    let alloc = rt.alloc();
    let mut plain = Plain::new(alloc);
    let mut map = given(&rt, Single::new(&rt, alloc));
    let mut drawn = 3;
    for _ in 0..60_000 {
        drawn = next(drawn);
        let op = operation(drawn);
        let expected = given(&rt, plain.apply(op));
        map = map.call(&rt, alloc, op, expected);
    }
    let entries = given(&rt, map.close(&rt, alloc).entries(alloc));
    same(&rt, &entries.as_slice(), &plain.entries());
}

// How many keys wait in the queue, and how many go through it. Each 16 of them use up a page number at least, so one map would need
// 12,500 page numbers.
const WAITING: u64 = 1_000;

const THROUGH: u64 = 200_000;

#[test]
fn a_queue_goes_on_in_the_room_of_its_entries(rt: HostRuntime) {
    let alloc = rt.alloc();
    let mut map = given(&rt, Single::new(&rt, alloc));
    for key in 0..THROUGH {
        map = map.call(&rt, alloc, Op::Insert(key, key ^ 5), Answer::Inserted);
        if key >= WAITING {
            let gone = key - WAITING;
            map = map.call(&rt, alloc, Op::Delete(gone), Answer::Removed(gone ^ 5));
        }
    }
    let index = map.close(&rt, alloc);
    let entries = given(&rt, index.entries(alloc));
    same(&rt, &entries.len(), &1_000);
    same(&rt, &index.find(199_000), &Some(199_000 ^ 5));
    same(&rt, &index.find(198_999), &None);
    // 1,000 entries in leaves of 32, and one inner page above these
    same(&rt, &index.page_count(), &33);
}

#[test]
fn a_renewed_map_has_its_entries(rt: HostRuntime) {
    let alloc = rt.alloc();
    let mut map = given(&rt, Single::new(&rt, alloc));
    map = map.call(&rt, alloc, Op::Insert(5, 50), Answer::Inserted);
    same(&rt, &map.renew(alloc), &Ok(()));
    map = map.call(&rt, alloc, Op::Find(5), Answer::Found(50));
    map = map.call(&rt, alloc, Op::Insert(5, 60), Answer::Exists(50));
    same(&rt, &map.renew(alloc), &Ok(()));
    map = map.call(&rt, alloc, Op::Delete(5), Answer::Removed(50));
    same(&rt, &map.renew(alloc), &Ok(()));
    let _map = map.call(&rt, alloc, Op::Find(5), Answer::Absent);
}

// Inserts keys and deletes each at once. So the map has one page, and is never full.
fn come_and_go<R: Wait + Abort>(rt: &R, alloc: Global, map: Single, from: u64, to: u64) -> Single {
    let mut map = map;
    for key in from..to {
        map = map.call(rt, alloc, Op::Insert(key, 7), Answer::Inserted);
        let delete = if key % 2 == 0 {
            Op::Delete(key)
        } else {
            Op::DeleteExact(key, 7)
        };
        map = map.call(rt, alloc, delete, Answer::Removed(7));
    }
    map
}

// No leaf is emptied for good where keys come and go, so the map stays as it is.
#[test]
fn a_map_in_which_keys_come_and_go_stays(rt: HostRuntime) {
    let alloc = rt.alloc();
    let map = given(&rt, Single::new(&rt, alloc));
    let (_map, number) = come_and_go(&rt, alloc, map, 0, 4_000).number(&rt);
    same(&rt, &number, &0);
}

// So many keys are inserted, and all but a hundred deleted. The map uses some 260 pages then, of 32 entries each.
const MANY: u64 = 6_000;

const REMOVED: u64 = 5_900;

// Each renewal but the last finds the map full. One removal of some sixteen is counted, so the last comes a few hundred sooner or later
// than when 5,300 entries are removed.
#[test]
fn a_map_is_renewed_after_many_removals(rt: HostRuntime) {
    let alloc = rt.alloc();
    let mut map = given(&rt, Single::new(&rt, alloc));
    for key in 0..MANY {
        map = map.call(&rt, alloc, Op::Insert(key, 7), Answer::Inserted);
    }
    let (mut map, full) = map.number(&rt);
    for key in 0..REMOVED {
        map = map.call(&rt, alloc, Op::Delete(key), Answer::Removed(7));
    }
    let (_map, number) = map.number(&rt);
    same(&rt, &number, &full.wrapping_add(1));
}

const SHORT: u64 = 100;

// Takes the key out of the queue, and puts another one in.
fn pass_on<R: Wait + Abort>(rt: &R, alloc: Global, map: Single, key: u64) -> Single {
    let map = map.call(rt, alloc, Op::Delete(key), Answer::Removed(key ^ 5));
    let last = key.wrapping_add(SHORT);
    map.call(rt, alloc, Op::Insert(last, last ^ 5), Answer::Inserted)
}

// A queue of a hundred entries, through ten thousand keys. For want of page numbers alone it would be renewed after each 4,000 or so, so
// twice; where emptied leaves count, once more.
#[test]
fn a_queue_is_renewed_before_its_front_has_many_empty_leaves(rt: HostRuntime) {
    let alloc = rt.alloc();
    let mut map = given(&rt, Single::new(&rt, alloc));
    for key in 0..SHORT {
        map = map.call(&rt, alloc, Op::Insert(key, key ^ 5), Answer::Inserted);
    }
    for key in 0..10_000 {
        map = pass_on(&rt, alloc, map, key);
    }
    same(&rt, &map.first(&rt), &Some(10_000));
    let (map, number) = map.number(&rt);
    assert!(&rt; number > 2);
    let entries = given(&rt, map.close(&rt, alloc).entries(alloc));
    same(&rt, &entries.len(), &100);
}

// Nobody but the caller renews the map of a session that is held.
#[test]
fn removals_of_a_held_session_are_counted(rt: HostRuntime) {
    let alloc = rt.alloc();
    let mut map = given(&rt, Single::new(&rt, alloc));
    for key in 0..MANY {
        map = map.call_held(&rt, alloc, Op::Insert(key, 7), Answer::Inserted);
    }
    let (mut map, full) = map.number(&rt);
    for key in 0..REMOVED {
        map = map.call_held(&rt, alloc, Op::Delete(key), Answer::Removed(7));
    }
    let (map, number) = map.number(&rt);
    same(&rt, &number, &full);
    map.renew_if_worn(alloc);
    map.renew_if_worn(alloc);
    let (_map, number) = map.number(&rt);
    same(&rt, &number, &full.wrapping_add(1));
}
