//! The parts of a script as it is read.
ghost use Rattle.std.specs.Prelude.{◌≡◌, ◌↔◌, ◌≤◌, [], length, Err, IfOk, IsOkUnless};
ghost use Rattle.blink_batch.specs.declared.batch.TheConstants.{BATCH_LIMIT};
ghost use Rattle.blink_batch.specs.declared.error.ScriptError.TheVariants.{OutOfMemory, TooMany};
ghost use Rattle.blink_batch.specs.Parts.{IsFull, IsOneTooMany, PartsSoFar, all_closed, all_parts, parts_with, with_part, with_pending};

use crate::batch::{BATCH_LIMIT, Batch};
use crate::error::ScriptError;
use crate::record::Request;
use crate::script::{Part, Script};
use blink_operation::Op;
use std::alloc::Global;
use std::marker::Model;
use std::mem;

/// A script as far as it is read. After a refusal of memory it may lack what it was to take.
#[derive(Drop)]
pub(crate) struct Parts {
    alloc: Global,
    // The parts that no operation joins any more.
    closed: Vec<Part>,
    // The operations since the last closed part. The next operation joins them.
    pending: Vec<Op>,
}

impl Model for Parts {
    ghost Value = { PartsSoFar };

    ghost view = { λ p. record { closed = p.closed.items; pending = p.pending.items } };

    ghost invariant = { λ p. length p.pending.items ≤ BATCH_LIMIT };
}

impl Parts {
    /// The script before its first record. It takes no memory.
    pub(crate) fn new(alloc: Global) -> Parts
        ensures { result ≡ record { closed = []; pending = [] } }
    {
        Parts {
            alloc,
            closed: Vec::new(alloc),
            pending: Vec::new(alloc),
        }
    }

    /// Takes the request of the record of this number.
    pub(crate) fn take(&mut self, number: u64, request: Request) -> Result<(), ScriptError>
        ensures taken { IfOk result (λ _. self.new ≡ parts_with self.old request) }
        ensures too_many { result ≡ Err (TooMany number) ↔ IsOneTooMany self.old request }
        ensures memory { ¬ IsOneTooMany self.old request → IsOkUnless result OutOfMemory }
    {
        match request {
            Request::Operation(op) => self.push(number, op),
            Request::Scan(lo, hi) => self.add_alone(Part::Scan(lo, hi)),
            Request::Page(lo, n) => self.add_alone(Part::Page(lo, n)),
        }
    }

    /// Returns the script after its last record.
    pub(crate) fn into_script(mut self) -> Result<Script, ScriptError>
        ensures parts { IfOk result (λ script. script.parts.items ≡ all_parts self) }
        ensures memory { IsOkUnless result OutOfMemory }
    {
        self.close()?;
        Ok(Script { parts: self.closed })
    }

    // Adds an operation to the open batch.
    fn push(&mut self, number: u64, op: Op) -> Result<(), ScriptError>
        ensures taken { IfOk result (λ _. self.new ≡ with_pending self.old op) }
        ensures too_many { result ≡ Err (TooMany number) ↔ IsFull self.old }
        ensures memory { ¬ IsFull self.old → IsOkUnless result OutOfMemory }
    {
        if self.pending.len() == BATCH_LIMIT {
            return Err(ScriptError::TooMany(number));
        }
        match self.pending.push(op) {
            Ok(()) => Ok(()),
            Err(_) => Err(ScriptError::OutOfMemory),
        }
    }

    // Ends the open batch, and adds a part that no operation joins.
    fn add_alone(&mut self, part: Part) -> Result<(), ScriptError>
        ensures added { IfOk result (λ _. self.new ≡ with_part (all_closed self.old) part) }
        ensures memory { IsOkUnless result OutOfMemory }
    {
        self.close()?;
        self.add(part)
    }

    // Ends the open batch: its operations become a part, if there are any.
    fn close(&mut self) -> Result<(), ScriptError>
        ensures closed { IfOk result (λ _. self.new ≡ all_closed self.old) }
        ensures memory { IsOkUnless result OutOfMemory }
    {
        if self.pending.is_empty() {
            return Ok(());
        }
        let ops = mem::replace(&mut self.pending, Vec::new(self.alloc));
        let batch = Batch::new(ops).unwrap();
        self.add(Part::Batch(batch))
    }

    // Adds a part after the closed ones.
    fn add(&mut self, part: Part) -> Result<(), ScriptError>
        ensures added { IfOk result (λ _. self.new ≡ with_part self.old part) }
        ensures memory { IsOkUnless result OutOfMemory }
    {
        match self.closed.push(part) {
            Ok(()) => Ok(()),
            Err(_) => Err(ScriptError::OutOfMemory),
        }
    }
}
