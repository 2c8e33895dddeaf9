//! Batches.
use crate::fixtures::row::Row;
use crate::fixtures::worlds::batch_of;
use crate::fixtures::{given, same, same_for};
use blink_batch::{Batch, BatchError, Op};
use std::alloc::Global;
use std::process::Abort;

// What is so of batches.
#[derive(Clone, Copy)]
enum Fact<'a> {
    // A batch has these operations, and so many insertions among them.
    Has(&'a [Op], usize),
    // So many finds are a batch, or too many for one.
    IsTaken(usize, bool),
    // Whether the batches of the two lists of operations are equal.
    AreEqual(&'a [Op], &'a [Op], bool),
}

fn is_so(rt: &impl Abort, alloc: Global, fact: Fact) {
    match fact {
        Fact::Has(ops, inserts) => has(rt, &batch_of(rt, alloc, ops), ops, inserts),
        Fact::IsTaken(count, expected) => is_taken(rt, alloc, count, expected),
        Fact::AreEqual(ops, others, expected) => {
            let equal = batch_of(rt, alloc, ops) == batch_of(rt, alloc, others);
            same_for(rt, &equal, &expected, &others);
        }
    }
}

fn has(rt: &impl Abort, batch: &Batch, ops: &[Op], inserts: usize) {
    same(rt, &batch.ops(), &ops);
    same(rt, &(batch.len(), batch.inserts()), &(ops.len(), inserts));
}

fn is_taken(rt: &impl Abort, alloc: Global, count: usize, expected: bool) {
    let batch = Batch::new(given(rt, vec![in alloc; Op::Find(1); count]));
    match batch {
        Ok(batch) => same(rt, &(true, batch.len()), &(expected, count)),
        Err(refusal) => same(rt, &(false, refusal), &(expected, BatchError::TooMany)),
    }
}

// The batch that others are compared with.
const FIRST: &[Op] = &[Op::Insert(5, 50), Op::Find(6)];

const FACTS: [(&str, &[Fact]); 3] = [
    (
        "batches have their operations",
        &[
            Fact::Has(&[Op::Insert(5, 50), Op::Find(5)], 1),
            Fact::Has(&[Op::Insert(5, 50), Op::Replace(5, 51)], 1),
        ],
    ),
    (
        "batches have a limit",
        &[
            Fact::IsTaken(4097, true),
            Fact::IsTaken(8192, true),
            Fact::IsTaken(8193, false),
        ],
    ),
    (
        "batches are equal by their operations",
        &[
            Fact::AreEqual(FIRST, &[Op::Insert(5, 50), Op::Find(6)], true),
            Fact::AreEqual(FIRST, &[Op::Insert(5, 50), Op::Find(7)], false),
            Fact::AreEqual(FIRST, &[Op::Insert(5, 51), Op::Find(6)], false),
            Fact::AreEqual(FIRST, &[Op::Insert(5, 50), Op::Delete(6)], false),
            Fact::AreEqual(FIRST, &[Op::Replace(5, 50), Op::Find(6)], false),
            Fact::AreEqual(FIRST, &[Op::Find(6), Op::Insert(5, 50)], false),
            Fact::AreEqual(FIRST, &[Op::Insert(5, 50)], false),
        ],
    ),
];

#[test]
fn batches(rt: HostRuntime) {
    for &(name, facts) in &FACTS {
        for &fact in facts {
            is_so(&Row { rt: &rt, name }, rt.alloc(), fact);
        }
    }
}
