//! Worlds and their steps. Their trees have at most 4 entries a page, where no other number is told.
mod examples;
mod one_leaf;
mod picks;
mod schedules;
mod seen;
mod splits;
