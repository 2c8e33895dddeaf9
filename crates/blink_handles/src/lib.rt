//! What stands behind the library for C and Rust: owners of a map, a session or a reader, the calls on them and on an
//! index, and entries, operations, answers and refusals as numbers. The exports of `blink_c` call it.
#![tactic(auto)]

pub mod apply;
pub mod batch;
pub mod make;
pub mod map_owner;
pub mod map_refusal;
pub mod raw;
pub mod reader_owner;
pub mod reads;
pub mod refusal;
pub mod session_owner;
pub mod shared_map;
