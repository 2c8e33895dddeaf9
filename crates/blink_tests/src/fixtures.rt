//! What examples begin with, and what they ask of it.
//!
//! Each helper asserts what the calls in it require, and promises nothing: so an example carries no facts from call to call, and
//! is proved in a few seconds, however many calls it makes. Values are compared by the generic helpers below, each of which is
//! proved once for all types. Cases that differ in values alone stand in a constant, through which one function goes: a function
//! for each case, a long literal in a function's body, and a loop beside values that are dropped at its end cost seconds.
pub mod pages;
pub mod row;
pub mod stores;
pub mod worlds;

use blink_batch::Entry;
use std::alloc::Global;
use std::fmt::{Debug, Display};
use std::process::Abort;

// What a call gives, which is to succeed.
pub fn given<T, E: Debug + Drop>(rt: &impl Abort, answer: Result<T, E>) -> T {
    answer.expect(rt, "a call is refused")
}

// The two are equal.
pub fn same<T: PartialEq + Debug>(rt: &impl Abort, value: &T, expected: &T) {
    assert_eq!(rt; *value, *expected);
}

// The two are equal; of a list of cases this is the one.
pub fn same_for<T: PartialEq + Debug, C: Debug>(
    rt: &impl Abort,
    value: &T,
    expected: &T,
    case: &C,
) {
    assert_eq!(rt; *value, *expected, "{case:?}");
}

// The value is shown as this text.
pub fn is_shown<T: Display>(rt: &impl Abort, alloc: Global, value: &T, text: &str) {
    let shown = given(rt, format!(in alloc; "{value}"));
    assert_eq!(rt; shown.as_str(), text);
}

// The entries are these keys with these pointers.
pub fn are_entries(rt: &impl Abort, entries: &[Entry], expected: &[(u64, u64)]) {
    same(rt, &entries.len(), &expected.len());
    for (entry, pair) in entries.iter().zip(expected.iter()) {
        same(rt, &(entry.key, entry.pointer), pair);
    }
}
