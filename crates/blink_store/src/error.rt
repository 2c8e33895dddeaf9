//! The refusals of a store.
ghost use Rattle.std.specs.Prelude.{◌≡◌};
ghost use Rattle.blink_store.specs.Codes.{code_of};

use thiserror::Error;

/// Why a store can't be made or can't get one more page.
#[derive(Clone, Copy, Debug, PartialEq, Eq, Error)]
pub enum StoreError {
    /// Memory was refused.
    #[error("out of memory")]
    OutOfMemory,
    /// Every page number is taken.
    #[error("out of pages")]
    OutOfPages,
}

impl StoreError {
    /// Returns the refusal's code, the same in every release.
    pub fn code(&self) -> u8
        ensures { result ≡ code_of self.now }
    {
        match self {
            StoreError::OutOfMemory => 20,
            StoreError::OutOfPages => 21,
        }
    }
}
