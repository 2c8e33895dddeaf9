//! The command line of the program `blink-show`: what its words ask for.
//!
//! `show_command` exports from `blink_command` what a program needs too: the command line of `blink`, and how both programs end.
#![tactic(auto)]

mod command;
mod show;

pub use blink_command::{End, Line, LineError, ProgramError, end_of, fault, read_line};
pub use command::show_matches_of;
pub use show::{Turns, read_show};
