//! A map that any thread changes at any key: a B-link tree in one table of words, and sessions that threads work by.
#![tactic(auto)]

mod advance;
mod change;
mod common;
mod error;
mod find;
mod find_all;
mod map;
mod member;
mod open;
mod pool;
mod recycle;
mod room;
mod scan;
mod scan_back;
mod shortage;
mod snapshot;
mod start;
mod steps;
mod stock;
mod tell;
mod try_change;
mod waiting;

pub use blink_live::Scanned;
pub use error::{Full, MapError};
pub use map::{Map, Pending, Room, Session, Stopped};
pub use stock::Stock;
pub use waiting::FREE_TRIES;
