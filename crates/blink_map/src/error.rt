//! The refusals of the calls on a growing map.
use thiserror::Error;

/// Why a call on a growing map is refused.
#[derive(Clone, Copy, Debug, PartialEq, Eq, Error)]
pub enum GrowError {
    /// Memory was refused.
    #[error("out of memory")]
    OutOfMemory,
    /// The entries leave too few of the 1,048,575 page numbers for a change.
    #[error("too large")]
    TooLarge,
    /// A map has 1 to 256 sessions.
    #[error("1 to 256 sessions")]
    Sessions,
    /// The map can't be renewed for now, since a session is held up in the midst of a call; or a call that waits for nobody found that
    /// the map was being renewed.
    #[error("a session is held up in a call")]
    Busy,
    /// The map's room is fixed, and a change found too little of it left, or the map was to be renewed.
    #[error("full")]
    Full,
}
