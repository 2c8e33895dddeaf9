//! The text of a replay to look at. It has a frame for each tree state of a script's last batch. A frame shows the pages by
//! number, the latches and their holders, each worker's operation, and what is decided.
#![tactic(auto)]

mod batch;
mod draw;
mod frame;
mod line;
mod show;
mod turns;
mod words;

pub use show::{Template, serve_seed, serve_show};
