//! Tests of the public calls of `show_command` and `blink_show`, and of these together with `blink_run`'s as the programs make them.
#![tactic(auto)]

#[cfg(test)]
mod command_lines;
#[cfg(test)]
mod ends;
#[cfg(test)]
mod fixtures;
#[cfg(test)]
mod runs;
#[cfg(test)]
mod shows;
