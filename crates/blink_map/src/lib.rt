//! A map that grows: any thread changes it at any key, and it has no room to be told. It is one map of `blink_generation` after another: where
//! the current one is full, the sessions are gathered, the entries copied into the next map with more room, and sessions of it put in
//! their places. The contracts speak of one list of changes, which is that of all these maps, one behind the other.
#![tactic(auto)]

mod advance;
mod calls;
mod close;
mod copy;
mod counts;
mod error;
mod gather;
mod growing;
mod held;
mod hold;
mod in_place;
mod left;
mod look;
mod next;
mod open;
mod places;
mod prepare;
mod renew;
mod room;
mod sessions;
mod slots;
mod start;
mod tell;
mod try_change;
mod try_reads;
mod waiting;
mod worn;

pub use blink_generation::{Room, Stock};
pub use blink_live::Scanned;
pub use error::GrowError;
pub use growing::{GrowingMap, Session, Unclosed};
pub use held::{Held, PendingHeld, StoppedHeld};
pub use places::Places;
pub use waiting::RENEWALS;
