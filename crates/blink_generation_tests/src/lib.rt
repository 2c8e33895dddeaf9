//! Tests of the calls that `blink_generation` offers.
#![tactic(auto)]

#[cfg(test)]
mod beside;
#[cfg(test)]
mod filling;
#[cfg(test)]
mod finding_all;
#[cfg(test)]
mod memory;
#[cfg(test)]
mod plain;
#[cfg(test)]
mod row;
#[cfg(test)]
mod rows_again;
#[cfg(test)]
mod same;
#[cfg(test)]
mod scanning;
#[cfg(test)]
mod scanning_back;
#[cfg(test)]
mod sessions;
#[cfg(test)]
mod shared;
#[cfg(test)]
mod sights;
#[cfg(test)]
mod snapshots;
#[cfg(test)]
mod splitting;
#[cfg(test)]
mod story;
#[cfg(test)]
mod threads;
#[cfg(test)]
mod trying;
