//! Tests of the public calls of `blink_run`, `blink_replay` and `blink_locked`.
#![tactic(auto)]

#[cfg(test)]
mod batches;
#[cfg(test)]
mod books;
#[cfg(test)]
mod calls;
#[cfg(test)]
mod fixtures;
#[cfg(test)]
mod replays;
#[cfg(test)]
mod row;
#[cfg(test)]
mod scripts;
#[cfg(test)]
mod settings;
#[cfg(test)]
mod writers;
