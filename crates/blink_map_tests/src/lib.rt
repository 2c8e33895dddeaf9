//! Tests of the calls that `blink_map` offers.
#![tactic(auto)]

#[cfg(test)]
mod growth;
#[cfg(test)]
mod held;
#[cfg(test)]
mod memory;
#[cfg(test)]
mod parts;
#[cfg(test)]
mod renewals;
#[cfg(test)]
mod room;
#[cfg(test)]
mod same;
#[cfg(test)]
mod scanning_back;
#[cfg(test)]
mod shared;
#[cfg(test)]
mod telling;
#[cfg(test)]
mod threads;
