//! The refusals of the exports of maps and of their sessions.
ghost use Rattle.std.specs.Prelude.{◌≡◌};
ghost use Rattle.blink_handles.specs.Codes.{code_of_outcome};
ghost use Rattle.blink_handles.specs.MapCodes.{code_of, refusal_of};

use crate::refusal::{Code, DONE};
use blink_map::GrowError;

/// Why a call on a map or its session is refused.
#[derive(Clone, Copy, Debug, PartialEq, Eq)]
pub enum MapRefusal {
    /// Memory was refused.
    OutOfMemory,
    /// The entries leave too few of the 1,048,575 page numbers.
    TooLarge,
    /// A map has 1 to 256 sessions.
    Sessions,
    /// No session rests at any place.
    NoSession,
    /// The map is being renewed; or it can't be, since a session is held or in a call.
    Busy,
    /// The map's room is fixed, and a change found too little of it left, or the map was to be renewed.
    Full,
    /// The session has enough rows in all, but some are on their way back.
    RowsBusy,
    /// The handle of a session, or another one of the map, isn't freed.
    Missing,
    /// The session has an operation under way.
    UnderWay,
    /// The session has no operation under way.
    Idle,
    /// A close of the map has begun.
    Closed,
}

impl MapRefusal {
    /// The refusal of a call of `blink_map`.
    pub fn of(refusal: GrowError) -> MapRefusal
        ensures { result ≡ refusal_of refusal }
    {
        match refusal {
            GrowError::OutOfMemory => MapRefusal::OutOfMemory,
            GrowError::TooLarge => MapRefusal::TooLarge,
            GrowError::Sessions => MapRefusal::Sessions,
            GrowError::Busy => MapRefusal::Busy,
            GrowError::Full => MapRefusal::Full,
        }
    }

    /// The refusal's code.
    pub fn code(&self) -> Code
        ensures { result ≡ code_of self.now }
    {
        match self {
            MapRefusal::OutOfMemory => 41,
            MapRefusal::TooLarge => 101,
            MapRefusal::Sessions => 102,
            MapRefusal::NoSession => 103,
            MapRefusal::Busy => 109,
            MapRefusal::Full => 105,
            MapRefusal::RowsBusy => 107,
            MapRefusal::Missing => 106,
            MapRefusal::UnderWay => 90,
            MapRefusal::Idle => 91,
            MapRefusal::Closed => 108,
        }
    }
}

/// The code that an export returns.
pub fn code_of(outcome: &Result<(), MapRefusal>) -> Code
    ensures { result ≡ code_of_outcome code_of outcome.now }
{
    match outcome {
        Ok(()) => DONE,
        Err(refusal) => refusal.code(),
    }
}
