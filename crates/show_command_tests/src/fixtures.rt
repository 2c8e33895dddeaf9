//! What the tests begin with, and what they ask of it.
//!
//! Each helper promises nothing, so a test carries no facts from call to call. What differs only by its values stands in a table that one
//! test goes through, since a row costs next to no proof.
use blink_run::{CutKind, Driver, Settings};
use show_command::End;
use std::alloc::Global;
use std::fmt::{Debug, Display};
use std::process::{Abort, ExitCode};

// What a call gives, which is to succeed.
pub(crate) fn given<T, E: Debug + Drop>(rt: &impl Abort, answer: Result<T, E>) -> T {
    answer.expect(rt, "a call is refused")
}

// The two are equal; of a table's cases this is the one.
pub(crate) fn same_for<T: PartialEq + Debug, C: Debug>(
    rt: &impl Abort,
    value: &T,
    expected: &T,
    case: &C,
) {
    assert_eq!(rt; *value, *expected, "{case:?}");
}

// The settings with these sizes.
pub(crate) fn settings(
    rt: &impl Abort,
    (workers, fan): (u8, u8),
    cut: CutKind,
    driver: Driver,
) -> Settings {
    given(rt, Settings::new(workers, fan, cut, driver))
}

// The value is shown as this text; of a table's cases this is the one.
pub(crate) fn is_shown<T: Display, C: Debug>(
    rt: &impl Abort,
    alloc: Global,
    value: &T,
    text: &str,
    case: &C,
) {
    let shown = given(rt, format!(in alloc; "{value}"));
    same_for(rt, &shown.as_str(), &text, case);
}

// A program that ended so has this status, tells these lines, and returns the status.
pub(crate) fn ends_with(
    rt: &(impl Abort + Eprint),
    alloc: Global,
    end: &End,
    status: u8,
    lines: &str,
) {
    same_for(rt, &end.status, &status, &lines);
    match &end.failure {
        Some(failure) => is_shown(rt, alloc, failure, lines, &status),
        None => panic!(rt; "nothing is told"),
    }
    assert!(rt; end.tell(rt) == ExitCode::from(status));
}
