//! A script served by a replay, without threads, and what every way to serve a script has in common: the parts of a script, the
//! text of their answers, and the writer that takes it.
//!
//! `blink_run` exports the public items of this crate too.
#![tactic(auto)]

mod parts;
mod replay;
mod text;
mod trace;
mod tracked_writer;

pub use parts::{batches_with, new_index};
pub use replay::{first_of_no_worker, lanes_by_residue, run_parts, serve_replay, write_replay};
pub use text::{push_answers, push_scan};
pub use trace::push_turn;
pub use tracked_writer::{TrackedWriter, flush_out, write_out};
