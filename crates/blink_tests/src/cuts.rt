//! Lanes, and cuts of batches.
use crate::fixtures::row::Row;
use crate::fixtures::worlds::batch_of;
use crate::fixtures::{given, same, same_for};
use blink_batch::{Batch, Cut, CutError, Lanes, Op};
use std::alloc::Global;
use std::process::Abort;

// So many workers, and the worker of each operation.
type Assigned<'a> = (u8, &'a [u8]);

// What is so of a batch.
#[derive(Clone, Copy)]
enum Fact<'a> {
    // Whether the one lanes are equal to the others.
    AreEqual(Assigned<'a>, Assigned<'a>, bool),
    // So many workers get these lanes by the remainders of the keys, or are refused.
    ByResidue(u8, Result<&'a [u8], CutError>),
    // The keys are cut at these bounds into these lanes, or the bounds are refused.
    ByRanges(&'a [u64], Result<&'a [u8], CutError>),
    // The lanes are taken, split keys or not, or they are refused.
    Lanes(Assigned<'a>, Result<(), CutError>),
    // The lanes are a cut of the batch, and the cut gives them back, or they are refused.
    Cut(Assigned<'a>, Result<(), CutError>),
    // Whether a cut of the batch into these lanes is one for the batch of these operations, too.
    IsFor(Assigned<'a>, &'a [Op], bool),
}

fn is_so(rt: &impl Abort, alloc: Global, batch: &Batch, fact: Fact) {
    match fact {
        Fact::AreEqual(one, other, expected) => are_equal(rt, alloc, batch, one, other, expected),
        Fact::ByResidue(workers, expected) => cuts_by_residue(rt, alloc, batch, workers, expected),
        Fact::ByRanges(bounds, expected) => cuts_by_ranges(rt, alloc, batch, bounds, expected),
        Fact::Lanes(assigned, expected) => takes_lanes(rt, alloc, batch, assigned, expected),
        Fact::Cut(assigned, expected) => takes_cut(rt, alloc, batch, assigned, expected),
        Fact::IsFor(assigned, ops, expected) => {
            let cut = given(rt, cut_of(rt, alloc, batch, assigned));
            same_for(rt, &cut.is_for(&batch_of(rt, alloc, ops)), &expected, &ops);
        }
    }
}

// The lanes, if they are some of the batch.
fn lanes_of(
    rt: &impl Abort,
    alloc: Global,
    batch: &Batch,
    (workers, lanes): Assigned,
) -> Result<Lanes, CutError> {
    Lanes::new(batch, workers, given(rt, lanes.to_vec(alloc)))
}

// The cut of these lanes, if they are one of the batch.
fn cut_of(
    rt: &impl Abort,
    alloc: Global,
    batch: &Batch,
    (workers, lanes): Assigned,
) -> Result<Cut, CutError> {
    Cut::from_lanes(batch, workers, given(rt, lanes.to_vec(alloc)))
}

fn are_equal(
    rt: &impl Abort,
    alloc: Global,
    batch: &Batch,
    one: Assigned,
    other: Assigned,
    expected: bool,
) {
    let lanes = given(rt, lanes_of(rt, alloc, batch, one));
    let others = given(rt, lanes_of(rt, alloc, batch, other));
    same_for(rt, &(lanes == others), &expected, &other);
}

fn cuts_by_residue(
    rt: &impl Abort,
    alloc: Global,
    batch: &Batch,
    workers: u8,
    expected: Result<&[u8], CutError>,
) {
    match Cut::by_residue(alloc, batch, workers) {
        Ok(cut) => {
            same_for(rt, &Ok(cut.lanes()), &expected, &workers);
            same(rt, &cut.workers(), &workers);
        }
        Err(refusal) => same_for(rt, &Err(refusal), &expected, &workers),
    }
}

fn cuts_by_ranges(
    rt: &impl Abort,
    alloc: Global,
    batch: &Batch,
    bounds: &[u64],
    expected: Result<&[u8], CutError>,
) {
    match Cut::by_ranges(alloc, batch, bounds) {
        Ok(cut) => {
            same_for(rt, &Ok(cut.lanes()), &expected, &bounds);
            let workers = bounds.len().wrapping_add(1);
            same_for(rt, &usize::from(cut.workers()), &workers, &bounds);
        }
        Err(refusal) => same_for(rt, &Err(refusal), &expected, &bounds),
    }
}

fn takes_lanes(
    rt: &impl Abort,
    alloc: Global,
    batch: &Batch,
    assigned: Assigned,
    expected: Result<(), CutError>,
) {
    match lanes_of(rt, alloc, batch, assigned) {
        Ok(lanes) => {
            same_for(rt, &Ok(()), &expected, &assigned);
            are(rt, &lanes, assigned);
        }
        Err(refusal) => same_for(rt, &Err(refusal), &expected, &assigned),
    }
}

fn takes_cut(
    rt: &impl Abort,
    alloc: Global,
    batch: &Batch,
    assigned: Assigned,
    expected: Result<(), CutError>,
) {
    match cut_of(rt, alloc, batch, assigned) {
        Ok(cut) => {
            same_for(rt, &Ok(()), &expected, &assigned);
            same(rt, &(cut.workers(), cut.is_for(batch)), &(assigned.0, true));
            are(rt, &cut.into_lanes(), assigned);
        }
        Err(refusal) => same_for(rt, &Err(refusal), &expected, &assigned),
    }
}

// The lanes have so many workers and these numbers.
fn are(rt: &impl Abort, lanes: &Lanes, assigned: Assigned) {
    same(rt, &(lanes.workers(), lanes.lanes()), &assigned);
}

// What is so of the batch of these operations.
struct Case<'a> {
    name: &'a str,
    ops: &'a [Op],
    facts: &'a [Fact<'a>],
}

fn are_so(rt: &impl Abort, alloc: Global, case: &Case) {
    let batch = batch_of(rt, alloc, case.ops);
    for &fact in case.facts {
        is_so(rt, alloc, &batch, fact);
    }
}

const TWO_KEYS: &[Op] = &[Op::Insert(5, 50), Op::Find(6)];

const KEYS_5_AND_8: &[Op] = &[Op::Insert(5, 6), Op::Find(8), Op::Find(5)];

const FOUR_KEYS: &[Op] = &[Op::Find(0), Op::Delete(3), Op::Find(4), Op::Find(u64::MAX)];

const THREE_TIMES_7: &[Op] = &[
    Op::Find(7),
    Op::Insert(5, 1),
    Op::Delete(7),
    Op::Delete(5),
    Op::Find(7),
    Op::Insert(7, 2),
];

// Two workers with an operation each.
const ONE_EACH: Assigned = (2, &[0, 1]);

const CASES: [Case; 8] = [
    Case {
        name: "lanes are equal with their workers",
        ops: TWO_KEYS,
        facts: &[
            Fact::AreEqual(ONE_EACH, (2, &[0, 1]), true),
            Fact::AreEqual(ONE_EACH, (3, &[0, 1]), false),
            Fact::AreEqual(ONE_EACH, (2, &[1, 1]), false),
        ],
    },
    Case {
        name: "cuts by the remainder of the key",
        ops: KEYS_5_AND_8,
        facts: &[
            Fact::ByResidue(3, Ok(&[2, 2, 2])),
            Fact::ByResidue(64, Ok(&[5, 8, 5])),
            Fact::ByResidue(0, Err(CutError::BadWorkers)),
            Fact::ByResidue(65, Err(CutError::BadWorkers)),
        ],
    },
    Case {
        name: "cuts by ranges of keys: two keys",
        ops: &[Op::Insert(9, 1), Op::Insert(10, 1)],
        facts: &[Fact::ByRanges(&[9], Ok(&[0, 1]))],
    },
    Case {
        name: "cuts by ranges of keys: four keys",
        ops: FOUR_KEYS,
        facts: &[
            Fact::ByRanges(&[], Ok(&[0, 0, 0, 0])),
            Fact::ByRanges(&[3], Ok(&[0, 0, 1, 1])),
            Fact::ByRanges(&[0, 3, 7], Ok(&[0, 1, 2, 3])),
            Fact::ByRanges(&[1, 2, u64::MAX], Ok(&[0, 2, 2, 2])),
            Fact::ByRanges(&[9, 9], Err(CutError::BadBounds)),
            Fact::ByRanges(&[2, 4, 3], Err(CutError::BadBounds)),
        ],
    },
    Case {
        name: "lanes may split a key",
        ops: &[Op::Insert(5, 6), Op::Delete(5)],
        facts: &[
            Fact::Lanes((2, &[1, 0]), Ok(())),
            Fact::Lanes((64, &[63, 63]), Ok(())),
            // The lanes are refused, as lanes of any assignment.
            Fact::Lanes((2, &[0, 2]), Err(CutError::BadLane(1))),
            Fact::Lanes((2, &[2, 2]), Err(CutError::BadLane(0))),
            Fact::Lanes((2, &[2]), Err(CutError::WrongLength)),
            Fact::Lanes((2, &[0, 0, 0]), Err(CutError::WrongLength)),
            Fact::Lanes((0, &[2]), Err(CutError::BadWorkers)),
            Fact::Lanes((65, &[0, 0]), Err(CutError::BadWorkers)),
        ],
    },
    Case {
        name: "cuts from lanes split no key",
        ops: &[Op::Insert(5, 50), Op::Find(5)],
        facts: &[
            Fact::Cut((2, &[0, 1]), Err(CutError::SplitKey(1))),
            Fact::Cut((2, &[0, 2]), Err(CutError::BadLane(1))),
            Fact::Cut((2, &[0]), Err(CutError::WrongLength)),
            Fact::Cut((2, &[0, 0, 0]), Err(CutError::WrongLength)),
            Fact::Cut((0, &[0]), Err(CutError::BadWorkers)),
            Fact::Cut((65, &[0, 1]), Err(CutError::BadWorkers)),
            Fact::Lanes((2, &[0, 1]), Ok(())),
            Fact::Cut((2, &[0, 0]), Ok(())),
        ],
    },
    // The lanes of 64 workers split a key, which is seen at this place.
    Case {
        name: "the first split key is reported",
        ops: THREE_TIMES_7,
        facts: &[
            Fact::Cut((64, &[0, 1, 0, 2, 1, 0]), Err(CutError::SplitKey(3))),
            Fact::Cut((64, &[0, 1, 0, 1, 1, 2]), Err(CutError::SplitKey(4))),
            Fact::Cut((64, &[0, 1, 0, 1, 0, 63]), Err(CutError::SplitKey(5))),
            Fact::Cut((64, &[0, 0, 1, 1, 0, 0]), Err(CutError::SplitKey(2))),
        ],
    },
    Case {
        name: "cuts are for batches",
        ops: TWO_KEYS,
        facts: &[
            Fact::IsFor(ONE_EACH, TWO_KEYS, true),
            Fact::IsFor(ONE_EACH, &[Op::Delete(6), Op::Find(5)], true),
            Fact::IsFor(ONE_EACH, &[Op::Insert(5, 50), Op::Find(5)], false),
            Fact::IsFor(ONE_EACH, &[Op::Insert(5, 50)], false),
            Fact::IsFor(ONE_EACH, &[Op::Find(5), Op::Find(6), Op::Find(7)], false),
        ],
    },
];

#[test]
fn batches_are_cut(rt: HostRuntime) {
    for case in &CASES {
        let name = case.name;
        are_so(&Row { rt: &rt, name }, rt.alloc(), case);
    }
}

// With 63 bounds there are 64 workers; with one bound more there would be too many, which is told before the order of the bounds.
#[test]
fn cuts_by_ranges_have_64_workers_at_most(rt: HostRuntime) {
    let alloc = rt.alloc();
    let batch = batch_of(&rt, alloc, FOUR_KEYS);
    let mut most = Vec::new(alloc);
    for bound in 0..63 {
        given(&rt, most.push(bound));
    }
    cuts_by_ranges(&rt, alloc, &batch, &most, Ok(&[0, 3, 4, 63]));
    given(&rt, most.push(5));
    cuts_by_ranges(&rt, alloc, &batch, &most, Err(CutError::BadWorkers));
}

// How many keys the full batch has.
const KEYS: u64 = 4095;

// Each key is a number times this, the inverse modulo 2 ^ 64 of what a key's bucket multiplies it by: so all fall into one bucket,
// whose chain has every operation.
const INTO_ONE_BUCKET: u64 = 0xF1DE_83E1_9937_733D;

// Two finds on each of those keys, and then two more on the first key: 8,192, as many as a batch may have.
fn full_batch(rt: &impl Abort, alloc: Global) -> Batch {
    let mut ops = Vec::new(alloc);
    for n in 0..8191u64 {
        let key = (n % KEYS).wrapping_mul(INTO_ONE_BUCKET);
        given(rt, ops.push(Op::Find(key)));
    }
    given(rt, ops.push(Op::Find(0)));
    given(rt, Batch::new(ops))
}

// The lanes of those finds by their keys, but the last, which is given.
fn lanes_with(rt: &impl Abort, alloc: Global, last: u8) -> Vec<u8> {
    let mut lanes = Vec::new(alloc);
    for n in 0..8191u64 {
        given(rt, lanes.push((n % KEYS % 2) as u8));
    }
    given(rt, lanes.push(last));
    lanes
}

#[test]
fn split_keys_are_reported_in_a_full_batch(rt: HostRuntime) {
    let alloc = rt.alloc();
    let batch = full_batch(&rt, alloc);
    for (last, expected) in [(0, Ok(())), (1, Err(CutError::SplitKey(8191)))] {
        let lanes = lanes_with(&rt, alloc, last);
        takes_cut(&rt, alloc, &batch, (2, &lanes), expected);
    }
}
