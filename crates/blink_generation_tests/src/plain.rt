//! A map by one thread, measured by the plain map.
use crate::same::{given, same, same_for};
use crate::shared::{Two, Who, try_apply};
use blink_batch::{Answer, Op, Plain};
use std::alloc::Global;
use std::process::Abort;

// So many operations that look like chance, on a map with so many rows.
struct Comparison {
    seed: u64,
    operations: u64,
    rows: u32,
}

const KEYS: u64 = 60;

// Few pointers, so that an operation that expects one often finds it.
const POINTERS: u64 = 3;

// The number after this one in a fixed sequence that looks like chance.
fn next(drawn: u64) -> u64 {
    drawn
        .wrapping_mul(6_364_136_223_846_793_005)
        .wrapping_add(1_442_695_040_888_963_407)
}

// The operation that a number stands for: of its high bits, which look most like chance.
fn operation(drawn: u64) -> Op {
    let key = (drawn >> 40) % KEYS;
    let pointer = (drawn >> 32) % POINTERS;
    match drawn >> 61 {
        0 => Op::Find(key),
        1 => Op::Delete(key),
        2 => Op::DeleteExact(key, pointer),
        3 => Op::Replace(key, pointer),
        4 | 5 => Op::Exchange(key, pointer, (drawn >> 36) % POINTERS),
        _ => Op::Insert(key, pointer),
    }
}

impl Two {
    // The first session's operation gives this where the session lies, or when it has begun anew.
    fn try_or_call(self, rt: &impl Abort, op: Op, expected: Answer) -> Two {
        let mut two = self;
        match two.try_one(op) {
            Some(answer) => {
                same_for(rt, &answer, &expected, &op);
                two
            }
            None => two.call(rt, Who::One, op, Ok(expected)),
        }
    }

    // `None`, if the operation is given up.
    fn try_one(&mut self, op: Op) -> Option<Answer> {
        let Two { map, one, other: _ } = self;
        match try_apply(map, one, op) {
            Ok(given) => given,
            Err(_) => None,
        }
    }
}

// The map's operation gives what the plain map's gives: each third where the session lies, if it can be made there.
fn run(rt: &impl Abort, two: Two, plain: &mut Plain, op: Op, turn: u64) -> Two {
    let expected = given(rt, plain.apply(op));
    let two = if turn % 5 == 0 { two.turn() } else { two };
    if turn % 3 == 0 {
        return two.try_or_call(rt, op, expected);
    }
    two.call(rt, Who::One, op, Ok(expected))
}

// Afterwards the map has the plain map's entries.
fn compare(rt: &impl Abort, alloc: Global, case: &Comparison) {
    let mut plain = Plain::new(alloc);
    let mut two = Two::open(rt, alloc, (4_000, case.rows));
    let mut drawn = case.seed;
    for turn in 0..case.operations {
        drawn = next(drawn);
        two = run(rt, two, &mut plain, operation(drawn), turn);
    }
    let entries = two.entries(rt, alloc, 0, u64::MAX);
    same(rt, &entries.as_slice(), &plain.entries());
}

const COMPARISONS: [Comparison; 2] = [
    Comparison {
        seed: 1,
        operations: 800,
        rows: 8_000,
    },
    // Each row is written hundreds of times.
    Comparison {
        seed: 2,
        operations: 200_000,
        rows: 600,
    },
];

#[test]
fn a_map_answers_as_the_plain_map(rt: HostRuntime) {
    for case in &COMPARISONS {
        compare(&rt, rt.alloc(), case);
    }
}
