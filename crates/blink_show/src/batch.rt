//! A batch's replay as text.
ghost use Rattle.std.specs.Prelude.{◌≡◌, ◌++◌, IfErr, IfOk, OnOk, string_bytes};
ghost use Rattle.blink_batch.specs.{MayWork};
ghost use Rattle.blink_replay.specs.{IsPartsFault, by_residue};
ghost use Rattle.blink_steps.specs.{IsStart};
ghost use Rattle.blink_show.specs.Batch.{AddsBatch, ops_from};
ghost use Rattle.blink_show.specs.AskedTurns.{AreOfWorkers, ShowsAsked};

use crate::frame::Film;
use crate::turns::{Asked, show_finish, show_turns};
use crate::words::push_op;
use blink_batch::{Batch, Op};
use blink_index::Index;
use blink_replay::lanes_by_residue;
use blink_settings::ServeError;
use blink_steps::World;
use std::alloc::{AllocError, Global};
use std::fmt::Write as _;

/// Runs a batch, cut by the remainders of its keys, over an index: the turns asked for, and then picked turns to the end. It
/// adds the batch's operations to the text, and then a frame for the first tree state and one for each turn.
pub(crate) fn show_batch(
    film: &mut Film,
    index: Index,
    batch: Batch,
    asked: Asked<'_>,
) -> Result<(), ServeError>
    requires { AreOfWorkers asked.settings.now.workers asked.turns }
    ensures shown { OnOk result
        (AddsBatch asked.entry.settings.now.workers (ShowsAsked asked.entry.turns) index batch
        (string_bytes film.old.text) (string_bytes film.new.text)) }
    ensures refused { IfErr result IsPartsFault }
{
    let workers = asked.settings.workers();
    push_ops(&mut film.text, batch.ops(), workers)?;
    let (mut world, owners) = start_world(film.alloc, index, batch, workers)?;
    show_turns(film, &mut world, asked.turns, &owners)?;
    show_finish(film, &mut world)
}

// Starts the batch over the index. Beside the world it returns the worker of each operation. It stands apart since its early
// returns give up the index and the batch: beside those that give up the world they would make one proof far longer than two.
fn start_world(
    alloc: Global,
    index: Index,
    batch: Batch,
    workers: u8,
) -> Result<(World, Vec<u8>), ServeError>
    requires { MayWork workers }
    ensures start { IfOk result
        (λ started. IsStart index batch (by_residue workers batch) started.0) }
    ensures owners { IfOk result (λ started. started.1.items ≡ started.0.run.assignment.lanes) }
    ensures refused { IfErr result IsPartsFault }
{
    let lanes = lanes_by_residue(alloc, &batch, workers)?;
    let owners = lanes.lanes().to_vec(alloc)?;
    let world = World::start(alloc, index.into_rest(), batch, lanes)?;
    Ok((world, owners))
}

// Adds the lines of a batch's operations.
fn push_ops(text: &mut String, ops: &[Op], workers: u8) -> Result<(), AllocError>
    requires { MayWork workers }
    ensures { OnOk result
        (string_bytes text.new ≡ string_bytes text.old ++ ops_from workers 0 ops.now) }
{
    for place in 0..ops.len() {
        let op = ops[place];
        write!(text, "op {place} {} ", op.key() % u64::from(workers))?;
        push_op(text, op)?;
        text.push_str("\n")?;
    }
    Ok(())
}
