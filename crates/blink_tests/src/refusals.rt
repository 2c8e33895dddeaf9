//! The numbers and the texts of refusals.
use crate::fixtures::{given, same_for};
use blink_batch::{BatchError, CutError, RecordError, ScriptError};
use blink_index::{EditError, IndexError, SortedError};
use blink_steps::StepError;
use blink_store::StoreError;
use std::alloc::Global;
use std::fmt::{Debug, Display};
use std::process::Abort;

// Refusals with their codes and texts, a list for each type.
const OF_INDEXES: [(IndexError, u8, &str); 2] = [
    (IndexError::BadFan, 40, "bad fan"),
    (IndexError::OutOfMemory, 41, "out of memory"),
];

const OF_EDITS: [(EditError, u8, &str); 2] = [
    (EditError::OutOfMemory, 41, "out of memory"),
    (EditError::TooLarge, 32, "too large"),
];

const OF_SORTED_ENTRIES: [(SortedError, u8, &str); 4] = [
    (SortedError::BadFan, 40, "bad fan"),
    (SortedError::NotAscending(2), 42, "entry 2: not ascending"),
    (SortedError::TooLarge, 32, "too large"),
    (SortedError::OutOfMemory, 41, "out of memory"),
];

const OF_STORES: [(StoreError, u8, &str); 2] = [
    (StoreError::OutOfMemory, 20, "out of memory"),
    (StoreError::OutOfPages, 21, "out of pages"),
];

const OF_STEPS: [(StepError, u8, &str); 3] = [
    (StepError::OutOfMemory, 30, "out of memory"),
    (StepError::NoWorker(7), 31, "no worker 7"),
    (StepError::TooLarge, 32, "too large"),
];

const OF_CUTS: [(CutError, u8, &str); 5] = [
    (CutError::BadWorkers, 2, "bad number of workers"),
    (CutError::WrongLength, 3, "wrong number of lanes"),
    (CutError::BadLane(1), 4, "operation 1: bad lane"),
    (CutError::SplitKey(1), 5, "operation 1: split key"),
    (CutError::BadBounds, 6, "bad bounds"),
];

const OF_SCRIPTS: [(ScriptError, u8, &str); 7] = [
    (
        ScriptError::Row(5, RecordError::BadShape),
        10,
        "row 5: bad shape",
    ),
    (
        ScriptError::Row(5, RecordError::UnknownOperation),
        11,
        "row 5: unknown operation",
    ),
    (
        ScriptError::Row(5, RecordError::BadNumber),
        12,
        "row 5: bad number",
    ),
    (ScriptError::Csv(5), 13, "row 5: unreadable record"),
    (
        ScriptError::TooMany(8193),
        14,
        "row 8193: too many operations",
    ),
    (ScriptError::Read, 15, "read failed"),
    (ScriptError::OutOfMemory, 16, "out of memory"),
];

// The code and the text of a refusal.
fn is_told<T: Display + Debug>(
    rt: &impl Abort,
    alloc: Global,
    refusal: &T,
    given_code: u8,
    (code, text): (u8, &str),
) {
    let shown = given(rt, format!(in alloc; "{refusal}"));
    same_for(rt, &(given_code, shown.as_str()), &(code, text), refusal);
}

#[test]
fn refusals_of_indexes_have_numbers_and_texts(rt: HostRuntime) {
    let alloc = rt.alloc();
    for &(refusal, code, text) in &OF_INDEXES {
        is_told(&rt, alloc, &refusal, refusal.code(), (code, text));
    }
    for &(refusal, code, text) in &OF_EDITS {
        is_told(&rt, alloc, &refusal, refusal.code(), (code, text));
    }
    for &(refusal, code, text) in &OF_SORTED_ENTRIES {
        is_told(&rt, alloc, &refusal, refusal.code(), (code, text));
    }
    for &(refusal, code, text) in &OF_STORES {
        is_told(&rt, alloc, &refusal, refusal.code(), (code, text));
    }
}

#[test]
fn refusals_of_batches_have_numbers_and_texts(rt: HostRuntime) {
    let alloc = rt.alloc();
    for &(refusal, code, text) in &OF_STEPS {
        is_told(&rt, alloc, &refusal, refusal.code(), (code, text));
    }
    for &(refusal, code, text) in &OF_CUTS {
        is_told(&rt, alloc, &refusal, refusal.code(), (code, text));
    }
    for &(refusal, code, text) in &OF_SCRIPTS {
        is_told(&rt, alloc, &refusal, refusal.code(), (code, text));
    }
    let others = (
        CutError::OutOfMemory.code(),
        RecordError::BadNumber.code(),
        BatchError::TooMany.code(),
    );
    same_for(&rt, &others, &(7, 12, 1), &"codes alone");
}
