//! The calls that many tests make, and what is compared of them.
ghost use Rattle.blink_batch.specs.{IsLawfulCut};

use crate::fixtures::{are_bytes, given, same, same_for};
use blink_batch::{Batch, Cut, Op};
use blink_run::{CutKind, Driver, Gate, Open, ServeError, Settings, serve, serve_replay};
use std::alloc::Global;
use std::io::{Read, Write};
use std::process::Abort;
use std::sync::Wait;
use std::thread::Threads;

/// Both drivers.
pub(crate) const DRIVERS: [Driver; 2] = [Driver::Locked, Driver::Live];

/// A batch, and its cut.
#[derive(Drop)]
pub(crate) struct CutBatch {
    pub(crate) batch: Batch,
    pub(crate) cut: Cut,
    ghost lawful: { IsLawfulCut batch cut.workers cut.lanes },
}

impl CutBatch {
    /// Cut by the remainders of the keys.
    pub(crate) fn new(rt: &impl Abort, alloc: Global, ops: &[Op], workers: u8) -> CutBatch {
        let batch = batch_of(rt, alloc, ops);
        let cut = given(rt, Cut::by_residue(alloc, &batch, workers));
        CutBatch::of_parts(rt, batch, cut)
    }

    /// With these lanes.
    pub(crate) fn by_lanes(
        rt: &impl Abort,
        alloc: Global,
        ops: &[Op],
        workers: u8,
        lanes: &[u8],
    ) -> CutBatch {
        let batch = batch_of(rt, alloc, ops);
        let lanes = given(rt, lanes.to_vec(alloc));
        let cut = given(rt, Cut::from_lanes(&batch, workers, lanes));
        CutBatch::of_parts(rt, batch, cut)
    }

    fn of_parts(rt: &impl Abort, batch: Batch, cut: Cut) -> CutBatch {
        assert!(rt; cut.is_for(&batch));
        CutBatch { batch, cut }
    }
}

/// The batch of these operations.
pub(crate) fn batch_of(rt: &impl Abort, alloc: Global, ops: &[Op]) -> Batch {
    given(rt, Batch::new(given(rt, ops.to_vec(alloc))))
}

/// What a call wrote, how it ended, and how many bytes of the script it left unread.
#[derive(Drop)]
pub(crate) struct Outcome {
    pub(crate) output: Vec<u8>,
    pub(crate) end: Result<(), ServeError>,
    pub(crate) unread: usize,
}

impl Outcome {
    /// The call went well, and wrote this text.
    pub(crate) fn expect_text(&self, rt: &impl Abort, expected: &str) {
        self.expect_bytes(rt, expected.as_bytes(), expected)
    }

    /// The call went well, and wrote these bytes; of a list of cases this is the one.
    pub(crate) fn expect_bytes(&self, rt: &impl Abort, expected: &[u8], case: &str) {
        same_for(rt, &self.end, &Ok(()), &case);
        are_bytes(rt, &self.output, expected, case)
    }

    /// The call was refused so, and wrote nothing.
    pub(crate) fn expect_refusal(&self, rt: &impl Abort, error: ServeError) {
        same(rt, &self.end, &Err(error));
        same_for(rt, &self.output.len(), &0, &error)
    }
}

/// Settings with the driver `Locked`.
pub(crate) fn locked(rt: &impl Abort, workers: u8, fan: u8, cut: CutKind) -> Settings {
    given(rt, Settings::new(workers, fan, cut, Driver::Locked))
}

/// Serves what a reader gives. Nothing is promised of it: what a test knows, it compares.
pub(crate) fn serve_from<T: Threads + Wait + Sync, R: Read, W: Write, G: Gate + Sync>(
    rt: &T,
    alloc: Global,
    reader: &mut R,
    writer: &mut W,
    settings: &Settings,
    gate: &G,
) -> Result<(), ServeError> {
    serve(rt, alloc, reader, writer, settings, gate)
}

/// Replays what a reader gives, and promises nothing of it.
pub(crate) fn replay_from<R: Read, W: Write>(
    alloc: Global,
    reader: &mut R,
    writer: &mut W,
    settings: &Settings,
    schedule: &[u8],
) -> Result<(), ServeError> {
    serve_replay(alloc, reader, writer, settings, schedule)
}

/// Serves a script.
pub(crate) fn served<R: Threads + Wait + Sync>(
    rt: &R,
    alloc: Global,
    script: &[u8],
    settings: &Settings,
) -> Outcome {
    let mut text = script;
    let mut output = Vec::new(alloc);
    let end = serve_from(rt, alloc, &mut text, &mut output, settings, &Open);
    Outcome {
        output,
        end,
        unread: text.len(),
    }
}

/// Replays a script.
pub(crate) fn replayed(
    alloc: Global,
    script: &[u8],
    settings: &Settings,
    schedule: &[u8],
) -> Outcome {
    let mut text = script;
    let mut output = Vec::new(alloc);
    let end = replay_from(alloc, &mut text, &mut output, settings, schedule);
    Outcome {
        output,
        end,
        unread: text.len(),
    }
}
