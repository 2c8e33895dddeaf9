//! Tests of the calls that `blink_live` offers, all of them through what it makes public.
#![tactic(auto)]

#[cfg(test)]
mod client;
#[cfg(test)]
mod closing;
#[cfg(test)]
mod dealing;
#[cfg(test)]
mod deleting;
#[cfg(test)]
mod finding;
#[cfg(test)]
mod finding_all;
#[cfg(test)]
mod glancing;
#[cfg(test)]
mod handing;
#[cfg(test)]
mod indexes;
#[cfg(test)]
mod inserting;
#[cfg(test)]
mod layout;
#[cfg(test)]
mod opening;
#[cfg(test)]
mod replacing;
#[cfg(test)]
mod retiring;
#[cfg(test)]
mod row;
#[cfg(test)]
mod same;
#[cfg(test)]
mod scanning;
#[cfg(test)]
mod scanning_back;
#[cfg(test)]
mod shared;
#[cfg(test)]
mod sights;
#[cfg(test)]
mod snapshots;
#[cfg(test)]
mod stepping;
#[cfg(test)]
mod steps;
#[cfg(test)]
mod story;
#[cfg(test)]
mod walks;
#[cfg(test)]
mod watching;
#[cfg(test)]
mod works;
