//! The refusals of a text that is no script.
ghost use Rattle.std.specs.Prelude.{◌≡◌};
ghost use Rattle.blink_batch.specs.Codes.{code_of_record_error, code_of_script_error};

use thiserror::Error;

/// Why one record of a script is no operation, no scan and no page.
#[derive(Clone, Copy, Debug, PartialEq, Eq, Error)]
pub enum RecordError {
    /// The record hasn't three fields, or its third field isn't empty where it has to be.
    #[error("bad shape")]
    BadShape,
    /// The record's first field names neither an operation nor a scan nor a page.
    #[error("unknown operation")]
    UnknownOperation,
    /// A field isn't a number of at most 18446744073709551615, spelled without a leading zero.
    #[error("bad number")]
    BadNumber,
}

impl RecordError {
    /// Returns the refusal's code, the same in every release.
    pub fn code(&self) -> u8
        ensures { result ≡ code_of_record_error self.now }
    {
        match self {
            RecordError::BadShape => 10,
            RecordError::UnknownOperation => 11,
            RecordError::BadNumber => 12,
        }
    }
}

/// Why a text is no script. Records are counted from 1.
#[derive(Clone, Copy, Debug, PartialEq, Eq, Error)]
pub enum ScriptError {
    /// This record is no operation, no scan and no page.
    #[error("row {0}: {1}")]
    Row(u64, RecordError),
    /// This record can't be read, for a cause other than the reader or memory.
    #[error("row {0}: unreadable record")]
    Csv(u64),
    /// This record is one operation more than a batch may have.
    #[error("row {0}: too many operations")]
    TooMany(u64),
    /// The reader failed.
    #[error("read failed")]
    Read,
    /// Memory was refused.
    #[error("out of memory")]
    OutOfMemory,
}

impl ScriptError {
    /// Returns the refusal's code, the same in every release.
    pub fn code(&self) -> u8
        ensures { result ≡ code_of_script_error self.now }
    {
        match self {
            ScriptError::Row(_, error) => error.code(),
            ScriptError::Csv(_) => 13,
            ScriptError::TooMany(_) => 14,
            ScriptError::Read => 15,
            ScriptError::OutOfMemory => 16,
        }
    }
}
