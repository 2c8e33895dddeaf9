//! The refusals of the calls on a map.
use thiserror::Error;

/// Why a map can't be opened.
#[derive(Clone, Copy, Debug, PartialEq, Eq, Error)]
pub enum MapError {
    /// Memory was refused.
    #[error("out of memory")]
    OutOfMemory,
    /// The map needs more page numbers than there are.
    #[error("too large")]
    TooLarge,
    /// A map has 1 to 256 sessions.
    #[error("1 to 256 sessions")]
    Sessions,
}

/// A session has fewer rows or page numbers left than the change may need.
#[derive(Clone, Copy, Debug, PartialEq, Eq, Error)]
#[error("full")]
pub struct Full;
