//! What tests ask of values: each of these is proved once, for all types.
use std::fmt::Debug;
use std::process::Abort;

// What a call gives, which is to succeed.
pub(crate) fn given<T, E: Debug + Drop>(rt: &impl Abort, answer: Result<T, E>) -> T {
    answer.expect(rt, "a call is refused")
}

// The two are equal.
pub(crate) fn same<T: PartialEq + Debug>(rt: &impl Abort, value: &T, expected: &T) {
    assert_eq!(rt; *value, *expected);
}

// The two are equal; of a list of cases this is the one.
pub(crate) fn same_for<T: PartialEq + Debug, C: Debug>(
    rt: &impl Abort,
    value: &T,
    expected: &T,
    case: &C,
) {
    assert_eq!(rt; *value, *expected, "{case:?}");
}
