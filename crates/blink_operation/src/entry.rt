//! The entries of a map.
/// A key with its record pointer. Callers in C pass entries as these two numbers.
#[repr(C)]
#[derive(Clone, Copy, Debug, PartialEq, Eq)]
pub struct Entry {
    pub key: u64,
    pub pointer: u64,
}
