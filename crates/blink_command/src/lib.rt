//! The command line of the program `blink`: what its words ask for, and how a program ends.
//!
//! The words of `blink-show` stand above, in `show_command`, so `blink` is proved without them.
#![tactic(auto)]

mod command;
mod end;
mod line;
mod value;

pub use command::{matches_of, option, replay_command};
pub use end::{End, ProgramError, end_of, fault};
pub use line::{Line, LineError, bad_value, read_line, refusal, settings_of, value_of};
pub use value::schedule_of;
