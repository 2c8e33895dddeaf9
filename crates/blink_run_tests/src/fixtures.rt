//! What tests ask of the calls that they make.
//!
//! Each helper is proved once, for all types, and promises nothing. So a test carries no facts from call to call, and is soon
//! proved, however many calls it makes.
use std::alloc::Global;
use std::fmt::{Debug, Display};
use std::process::Abort;

/// What a call gives, which is to succeed.
pub(crate) fn given<T, E: Debug + Drop>(rt: &impl Abort, answer: Result<T, E>) -> T {
    answer.expect(rt, "a call is refused")
}

/// The two are equal.
pub(crate) fn same<T: PartialEq + Debug>(rt: &impl Abort, value: &T, expected: &T) {
    assert_eq!(rt; *value, *expected);
}

/// The two are equal; of a list of cases this is the one.
pub(crate) fn same_for<T: PartialEq + Debug, C: Debug>(
    rt: &impl Abort,
    value: &T,
    expected: &T,
    case: &C,
) {
    assert_eq!(rt; *value, *expected, "{case:?}");
}

/// The bytes are these; of a list of cases this is the one.
pub(crate) fn are_bytes(rt: &impl Abort, bytes: &[u8], expected: &[u8], case: &str) {
    same_for(rt, &bytes, &expected, &case)
}

/// The text is this.
pub(crate) fn is_text(rt: &impl Abort, text: &str, expected: &str) {
    same(rt, &text, &expected)
}

/// So many bytes of the text.
pub(crate) fn prefix_of<'a>(rt: &impl Abort, text: &'a [u8], length: usize) -> &'a [u8] {
    assert!(rt; length <= text.len());
    &text[..length]
}

/// The parts one after another, each so many times.
pub(crate) fn bytes_of(rt: &impl Abort, alloc: Global, parts: &[(&str, usize)]) -> Vec<u8> {
    let mut bytes = Vec::new(alloc);
    for &(part, times) in parts {
        push_repeated(rt, alloc, &mut bytes, part, times);
    }
    bytes
}

// Adds the part so many times.
fn push_repeated(rt: &impl Abort, alloc: Global, bytes: &mut Vec<u8>, part: &str, times: usize) {
    let repeated = given(rt, part.repeat(alloc, times));
    given(rt, bytes.extend_from_slice(repeated.as_bytes()));
}

/// The value is shown as this text.
pub(crate) fn is_shown<T: Display>(rt: &impl Abort, alloc: Global, value: &T, text: &str) {
    let shown = given(rt, format!(in alloc; "{value}"));
    is_text(rt, &shown, text)
}
