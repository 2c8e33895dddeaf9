//! A batch's run over a B-link tree, under any schedule of its workers' steps. `blink_machine` has what one operation does to
//! pages, one atomic step at a time. This crate exports its public items too.
#![tactic(auto)]

mod lane_queues;
pub mod laws;
mod outcome;
mod run;
mod seat;
mod shared;
mod world;

pub use blink_batch::StepError;
pub use blink_machine::laws::step_keeps;
pub use blink_machine::{Debt, Job, Kind, Machine, Need, Next, State, Step};
pub use blink_page::MAX_NEW_PAGES_PER_INSERT;
pub use seat::Working;
pub use world::{World, replay};
