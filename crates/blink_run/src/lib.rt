//! Threads around the step machine: a batch runs on an index, each worker's lane in a thread of its own.
//!
//! The driver `Locked` takes every step under one lock (`blink_locked`). The driver `Live` gives each lane a pass of one table
//! of atomic words, which threads share without a global lock. The promise that a thread's handle carries says what the thread
//! has done.
#![tactic(auto)]

mod live;
mod run;
mod script;

pub use blink_locked::{Gate, Open};
pub use blink_replay::{
    TrackedWriter, first_of_no_worker, flush_out, lanes_by_residue, new_index, push_turn,
    run_parts, serve_replay, write_out, write_replay,
};
pub use blink_settings::{CutKind, Driver, RunError, ServeError, Settings, SettingsError};
pub use run::run_batch;
pub use script::{serve, serve_index};
