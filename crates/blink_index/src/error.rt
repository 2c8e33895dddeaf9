//! The refusals of an index.
ghost use Rattle.std.specs.Prelude.{◌≡◌};
ghost use Rattle.blink_index.specs.Codes.{code_of, code_of_edit, code_of_sorted};

use thiserror::Error;

/// Why an index can't be made.
#[derive(Clone, Copy, Debug, PartialEq, Eq, Error)]
pub enum IndexError {
    /// The number of entries that a page may have isn't from 4 to 32.
    #[error("bad fan")]
    BadFan,
    /// Memory was refused.
    #[error("out of memory")]
    OutOfMemory,
}

impl IndexError {
    /// Returns the refusal's code, the same in every release.
    pub fn code(&self) -> u8
        ensures { result ≡ code_of self.now }
    {
        match self {
            IndexError::BadFan => 40,
            IndexError::OutOfMemory => 41,
        }
    }
}

/// Why an index can't be changed in place. A refusal leaves it as it was.
#[derive(Clone, Copy, Debug, PartialEq, Eq, Error)]
pub enum EditError {
    /// Memory was refused.
    #[error("out of memory")]
    OutOfMemory,
    /// The insertion might need more page numbers than exist.
    #[error("too large")]
    TooLarge,
}

impl EditError {
    /// Returns the refusal's code, the same in every release. Other calls that refuse for the same reason have the same code.
    pub fn code(&self) -> u8
        ensures { result ≡ code_of_edit self.now }
    {
        match self {
            EditError::OutOfMemory => 41,
            EditError::TooLarge => 32,
        }
    }
}

/// Why an index can't be made of entries. The reasons are checked in this order.
#[derive(Clone, Copy, Debug, PartialEq, Eq, Error)]
pub enum SortedError {
    /// The number of entries that a page may have isn't from 4 to 32.
    #[error("bad fan")]
    BadFan,
    /// The key at this place, counted from 0, isn't above the one before. It is the first such place.
    #[error("entry {0}: not ascending")]
    NotAscending(usize),
    /// The entries need more pages than there are numbers.
    #[error("too large")]
    TooLarge,
    /// Memory was refused.
    #[error("out of memory")]
    OutOfMemory,
}

impl SortedError {
    /// Returns the refusal's code, the same in every release. Other calls that refuse for the same reason have the same code.
    pub fn code(&self) -> u8
        ensures { result ≡ code_of_sorted self.now }
    {
        match self {
            SortedError::BadFan => 40,
            SortedError::NotAscending(_) => 42,
            SortedError::TooLarge => 32,
            SortedError::OutOfMemory => 41,
        }
    }
}
