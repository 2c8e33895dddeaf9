//! The indexes over which the tests open tables, and the entries that a closed table must have. A page has at most 4 entries.
use crate::same::{given, same, same_for};
use crate::walks::{every, keys_of};
use blink_batch::{Batch, Entry, Lanes, Op};
use blink_index::Index;
use blink_steps::World;
use std::alloc::Global;
use std::process::Abort;

// ---- before

// The keys from 1 on, each with ten times the key.
const UPWARDS: [Op; 14] = [
    Op::Insert(1, 10),
    Op::Insert(2, 20),
    Op::Insert(3, 30),
    Op::Insert(4, 40),
    Op::Insert(5, 50),
    Op::Insert(6, 60),
    Op::Insert(7, 70),
    Op::Insert(8, 80),
    Op::Insert(9, 90),
    Op::Insert(10, 100),
    Op::Insert(11, 110),
    Op::Insert(12, 120),
    Op::Insert(13, 130),
    Op::Insert(14, 140),
];

fn start(rt: &impl Abort, alloc: Global, ops: &[Op]) -> World {
    let batch = given(rt, Batch::new(given(rt, ops.to_vec(alloc))));
    let lanes = given(rt, vec![in alloc; 0u8; ops.len()]);
    let lanes = given(rt, Lanes::new(&batch, 1, lanes));
    assert!(rt; lanes.lanes().len() == batch.len());
    let empty = given(rt, Index::new(alloc, 4));
    given(rt, World::start(alloc, empty.into_rest(), batch, lanes))
}

fn after(rt: &impl Abort, world: World) -> Index {
    let ended = world.ended();
    assert!(rt; ended);
    Index::from_rest(world.into_rest())
}

// The index of the keys after the first number up to the second, inserted upwards by one worker, each with ten times the key. Of
// the keys up to 4 it is one leaf, which is full. Of those up to 14 it has three levels, and pages numbered in the order in which
// they were split off.
pub(crate) fn filled(rt: &impl Abort, alloc: Global, above: usize, last: usize) -> Index {
    let ops = UPWARDS.get(above..last).expect(rt, "no such keys");
    let mut world = start(rt, alloc, ops);
    given(rt, world.finish());
    after(rt, world)
}

// ---- afterwards

// What is seen of a closed table's index.
#[derive(Clone, Copy)]
pub(crate) enum Look {
    Dump(&'static str),
    PageCount(u32),
    // Each of these keys has this pointer, or isn't there.
    Finds(&'static [(u64, Option<u64>)]),
    // From the first number to the second there are exactly these keys, each with ten times the key.
    Scan(u64, u64, &'static [u64]),
    // There are exactly so many keys, the last number, each by the first number above the one before, from the second on, and each
    // with ten times the key.
    Every(u64, u64, u64),
}

pub(crate) fn look_at(rt: &impl Abort, alloc: Global, index: &Index, looks: &[Look]) {
    for look in looks {
        match *look {
            Look::Dump(dump) => assert_dump(rt, alloc, index, dump),
            Look::PageCount(count) => same(rt, &index.page_count(), &count),
            Look::Finds(keys) => assert_finds(rt, index, keys),
            Look::Scan(first, last, keys) => assert_keys(rt, alloc, index, first, last, keys),
            Look::Every(step, first, count) => {
                let all = keys_of(rt, alloc, &every(step, first, count));
                assert_keys(rt, alloc, index, 0, u64::MAX, &all);
            }
        }
    }
}

fn assert_dump(rt: &impl Abort, alloc: Global, index: &Index, dump: &str) {
    let shown = given(rt, index.dump(alloc));
    same(rt, &shown.as_str(), &dump);
}

fn assert_finds(rt: &impl Abort, index: &Index, keys: &[(u64, Option<u64>)]) {
    for &(key, pointer) in keys {
        same_for(rt, &index.find(key), &pointer, &key);
    }
}

fn assert_keys(rt: &impl Abort, alloc: Global, index: &Index, first: u64, last: u64, keys: &[u64]) {
    let entries: Vec<Entry> = given(rt, index.scan(first, last).collect(alloc));
    are_entries(rt, &entries, keys);
}

fn are_entries(rt: &impl Abort, entries: &[Entry], keys: &[u64]) {
    same(rt, &entries.len(), &keys.len());
    for (entry, &key) in entries.iter().zip(keys) {
        let pointer = key.wrapping_mul(10);
        same(rt, entry, &Entry { key, pointer });
    }
}
