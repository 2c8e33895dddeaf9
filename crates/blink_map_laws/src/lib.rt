//! Laws of a growing map with any number of sessions, by its contracts alone. Most are whole programs, from the opening of a map to its close, so
//! that nobody else changes it follows from the code.
#![tactic(auto)]

mod back;
pub mod calls;
pub mod counter;
pub mod race;
pub mod shown;
#[cfg(test)]
mod tests;
pub mod whole;
