//! A batch's run on an index by threads, each step under one lock.
//!
//! Under the lock is a book. Its type names what its run begins with, and guarantees that the book is the run of a schedule in
//! which every turn moved. So the runner knows what the threads have done.
#![tactic(auto)]

mod book;
mod gate;
mod locked_run;
mod origin;
mod run;

pub use blink_settings::all_of;
pub use book::{Book, Turn};
pub use gate::{Gate, Open};
pub use locked_run::LockedRun;
pub use origin::Origin;
pub use run::run_locked;
