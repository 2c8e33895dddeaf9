//! The calls at each operation's beginning and end.

/// A gate that each operation passes twice: before its first step, and after its end. The worker that calls it holds no lock and
/// no latch. So a gate may take its time, and other workers go on meanwhile.
pub trait Gate {
    /// Called when the worker is about to begin the operation at this place of the batch.
    fn before(&self, worker: u8, op: u32);

    /// Called when the operation at this place of the batch has ended.
    fn after(&self, worker: u8, op: u32);
}

/// The gate that is always open: it does nothing.
#[derive(Clone, Copy, Debug, PartialEq, Eq)]
pub struct Open;

impl Gate for Open {
    fn before(&self, _worker: u8, _op: u32) {}

    fn after(&self, _worker: u8, _op: u32) {}
}
