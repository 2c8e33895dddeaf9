//! The refusals of the calls on a table.
ghost use Rattle.std.specs.Prelude.{◌≡◌};
ghost use Rattle.blink_live.specs.Codes.{code_of, code_of_hand, code_of_pass};

use thiserror::Error;

/// Why a table can't be opened or closed, or a pass can't be dealt.
#[derive(Clone, Copy, Debug, PartialEq, Eq, Error)]
pub enum LiveError {
    /// Memory was refused when a table was to be opened or closed.
    #[error("out of memory")]
    OutOfMemory,
    /// A pass has this key which is out, or the key stands twice in the list that was to be dealt.
    #[error("key {0} is taken")]
    Taken(u64),
    /// The keeper has fewer insertions or deletions left than were asked for, or has dealt as many passes as it may.
    #[error("no allowance")]
    NoAllowance,
    /// Memory was refused when a pass was to be dealt.
    #[error("out of memory")]
    DealOutOfMemory,
    /// A pass is out that isn't among those that came back.
    #[error("missing pass")]
    Missing,
    /// The allowed insertions might need more page numbers than there are.
    #[error("too large")]
    TooLarge,
}

impl LiveError {
    /// Returns the refusal's code, the same in every release.
    pub fn code(&self) -> u8
        ensures { result ≡ code_of self.now }
    {
        match self {
            LiveError::OutOfMemory => 41,
            LiveError::Taken(_) => 51,
            LiveError::NoAllowance => 52,
            LiveError::DealOutOfMemory => 41,
            LiveError::Missing => 56,
            LiveError::TooLarge => 57,
        }
    }
}

/// Why a call with a pass is refused.
#[derive(Clone, Copy, Debug, PartialEq, Eq, Error)]
pub enum PassError {
    /// The key isn't one of the pass's.
    #[error("not yours")]
    NotYours,
    /// The pass has no insertion left, or no deletion, of those that it was dealt.
    #[error("spent")]
    Spent,
}

impl PassError {
    /// Returns the refusal's code, the same in every release.
    pub fn code(&self) -> u8
        ensures { result ≡ code_of_pass self.now }
    {
        match self {
            PassError::NotYours => 54,
            PassError::Spent => 55,
        }
    }
}

/// Why keys can't change hands between two passes.
#[derive(Clone, Copy, Debug, PartialEq, Eq, Error)]
pub enum HandError {
    /// The key isn't one of the pass's that hands keys over, or it stands twice in the list.
    #[error("key {0} is not yours")]
    NotYours(u64),
    /// Memory was refused when keys were to change hands.
    #[error("out of memory")]
    OutOfMemory,
}

impl HandError {
    /// Returns the refusal's code, the same in every release.
    pub fn code(&self) -> u8
        ensures { result ≡ code_of_hand self.now }
    {
        match self {
            HandError::NotYours(_) => 58,
            HandError::OutOfMemory => 41,
        }
    }
}
