//! The meaning of one record of a script.
ghost use Rattle.std.specs.Prelude.{◌≡◌, ◌≢◌, [], ◌∷◌, length, MatchOption};
ghost use Rattle.csv.specs.Records.{fields_of};
ghost use Rattle.blink_batch.specs.Number.{number_of};
ghost use Rattle.blink_batch.specs.Record.{key_alone, named, request_of, two_numbers};

use crate::error::RecordError;
use crate::number::read_number;
use blink_operation::Op;
use csv::ByteRecord;

/// The request of one record.
#[derive(Clone, Copy)]
pub(crate) enum Request {
    /// An operation of a batch.
    Operation(Op),
    /// The entries with keys from the first number to the second.
    Scan(u64, u64),
    /// The first entries with keys from the first number on. The second number says how many.
    Page(u64, u64),
}

/// Returns the request of a record.
pub(crate) fn read_request(row: &ByteRecord) -> Result<Request, RecordError>
    ensures { result ≡ request_of (fields_of row.now) }
{
    match three_fields(row) {
        Some((word, second, third)) => request_of(word, second, third),
        None => Err(RecordError::BadShape),
    }
}

// The fields, if the record has three.
fn three_fields(row: &ByteRecord) -> Option<(&[u8], &[u8], &[u8])>
    ensures { MatchOption result (length (fields_of row.now) ≢ 3)
        (λ fields. fields_of row.now ≡ fields.0.now ∷ fields.1.now ∷ fields.2.now ∷ []) }
{
    if row.len() != 3 {
        return None;
    }
    Some((row.get(0)?, row.get(1)?, row.get(2)?))
}

// The request of a word and the two fields after it.
fn request_of(word: &[u8], second: &[u8], third: &[u8]) -> Result<Request, RecordError>
    ensures { result ≡ named word.now second.now third.now }
{
    if word == b"insert".as_slice() {
        two_numbers(second, third).map(|(key, pointer)| Request::Operation(Op::Insert(
            key, pointer,
        )))
    } else if word == b"find".as_slice() {
        key_alone(second, third).map(|key| Request::Operation(Op::Find(key)))
    } else if word == b"delete".as_slice() {
        key_alone(second, third).map(|key| Request::Operation(Op::Delete(key)))
    } else if word == b"replace".as_slice() {
        two_numbers(second, third).map(|(key, pointer)| Request::Operation(Op::Replace(
            key, pointer,
        )))
    } else if word == b"scan".as_slice() {
        two_numbers(second, third).map(|(lo, hi)| Request::Scan(lo, hi))
    } else if word == b"page".as_slice() {
        two_numbers(second, third).map(|(lo, n)| Request::Page(lo, n))
    } else {
        Err(RecordError::UnknownOperation)
    }
}

// The key of an operation that has no other number.
fn key_alone(second: &[u8], third: &[u8]) -> Result<u64, RecordError>
    ensures { result ≡ key_alone third.now (number_of second.now) }
{
    if !third.is_empty() {
        return Err(RecordError::BadShape);
    }
    read_number(second).ok_or(RecordError::BadNumber)
}

// The two numbers of an insertion, of a replacement, of a scan, or of a page.
fn two_numbers(second: &[u8], third: &[u8]) -> Result<(u64, u64), RecordError>
    ensures { result ≡ two_numbers (number_of second.now) (number_of third.now) }
{
    match (read_number(second), read_number(third)) {
        (Some(one), Some(other)) => Ok((one, other)),
        _ => Err(RecordError::BadNumber),
    }
}
