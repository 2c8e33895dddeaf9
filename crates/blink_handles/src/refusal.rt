//! The refusals of the exports, and their codes.
ghost use Rattle.std.specs.Prelude.{◌≡◌};
ghost use Rattle.blink_handles.specs.Codes.{code_of, code_of_outcome};

use blink_batch::{BatchError, CutError, RecordError};
use blink_index::IndexError;
use blink_steps::StepError;

/// What an export returns: 0, or the code of a refusal. It is as wide as C's `int`.
pub type Code = u32;

/// The code of a call that isn't refused.
pub const DONE: Code = 0;

/// Why a call on an index is refused.
#[derive(Clone, Copy, Debug, PartialEq, Eq)]
pub enum Refusal {
    /// The operations are more than a batch may have.
    TooMany,
    /// Two arrays of the caller aren't equally long.
    WrongLength,
    /// The kind of an operation is none of the four.
    UnknownOperation,
    /// The insertions might need more page numbers than exist.
    TooLarge,
    /// The number of entries that a page may have isn't from 4 to 32.
    BadFan,
    /// Memory was refused.
    OutOfMemory,
    /// The index has another reader.
    Shared,
}

impl Refusal {
    /// The refusal's code: that of the call which refuses so, or one of this crate's own.
    pub fn code(&self) -> Code
        ensures { result ≡ code_of self.now }
    {
        match self {
            Refusal::TooMany => u32::from(BatchError::TooMany.code()),
            Refusal::WrongLength => u32::from(CutError::WrongLength.code()),
            Refusal::UnknownOperation => u32::from(RecordError::UnknownOperation.code()),
            Refusal::TooLarge => u32::from(StepError::TooLarge.code()),
            Refusal::BadFan => u32::from(IndexError::BadFan.code()),
            Refusal::OutOfMemory => u32::from(IndexError::OutOfMemory.code()),
            Refusal::Shared => 43,
        }
    }
}

/// The code that an export returns.
pub fn code_of(outcome: &Result<(), Refusal>) -> Code
    ensures { result ≡ code_of_outcome code_of outcome.now }
{
    match outcome {
        Ok(()) => DONE,
        Err(refusal) => refusal.code(),
    }
}
