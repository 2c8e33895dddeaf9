//! The index and the map for programs in C and Rust: a static library whose exports each call a call of `blink_handles` or
//! `blink_index`, and turn its answer into a code. `include/blink.h` and `include/blink_bindings.h` declare them.
#![tactic(auto)]

mod apply;
mod batch;
mod dump;
mod edit;
mod index;
mod index_handle;
mod index_slot;
mod make;
mod map;
mod map_handle;
mod map_slot;
mod parts;
mod reader;
mod reader_handle;
mod reader_slot;
mod scan;
mod session;
mod session_handle;
mod session_slot;
