//! Workers drawn at random.
ghost use Rattle.std.specs.Prelude.{◌≡◌, ◌<◌, ◌↔◌, IfOk, IfSome, IsTrue, MatchOption, OnOk, length};
ghost use Rattle.rand_xoshiro.specs.SplitMix64.{next_state};
ghost use Rattle.blink_steps.specs.{WouldMove, HasEnded, IsWorld};
ghost use Rattle.blink_show.specs.Draw.{AreMovers, DrawsAt, LeavesUndecided};

use blink_batch::Answer;
use blink_steps::World;
use rand_core::utils::NextWord;
use rand_xoshiro::SplitMix64;
use std::alloc::{AllocError, Global};

/// Draws one of the workers whose next turn would be a step, by the generator's next word. If all operations have ended, it
/// returns `None`, and takes no word. The owners are the workers of the batch's operations.
pub(crate) fn draw(
    alloc: Global,
    world: &World,
    owners: &[u8],
    chance: &mut SplitMix64,
) -> Result<Option<u8>, AllocError>
    requires { owners.now ≡ world.now.run.assignment.lanes }
    ensures drawn { IfOk result (λ drawn. MatchOption drawn (HasEnded world.now.run)
        (DrawsAt chance.old world.now.run)) }
    ensures moves { IfOk result (λ drawn. IfSome drawn (WouldMove world.now.run)) }
    ensures a_worker { IfOk result
        (λ drawn. IfSome drawn (λ worker. worker < world.now.run.assignment.workers)) }
    ensures lawful { IfOk result (λ _. IsWorld world.now) }
    ensures next { IfOk result (λ drawn. IfSome drawn (λ _. chance.new ≡ next_state chance.old)) }
{
    let movers = movers(alloc, world, owners)?;
    let _lawful = world.schedule();
    if movers.is_empty() {
        return Ok(None);
    }
    let place = chance.next_word() % movers.len() as u64;
    Ok(Some(movers[place as usize]))
}

// The workers whose next turn would be a step, in ascending order.
fn movers(alloc: Global, world: &World, owners: &[u8]) -> Result<Vec<u8>, AllocError>
    requires { owners.now ≡ world.now.run.assignment.lanes }
    ensures { IfOk result
        (λ movers. AreMovers world.now.run world.now.run.assignment.workers movers.items) }
{
    let mut movers = Vec::new(alloc);
    for worker in 0..world.workers() {
        if would_move(world, owners, worker) {
            movers.push(worker)?;
        }
    }
    Ok(movers)
}

// Whether the worker's next turn would be a step: the worker doesn't wait, and has an operation under way or still to begin.
fn would_move(world: &World, owners: &[u8], worker: u8) -> bool
    requires a_worker { worker < world.now.run.assignment.workers }
    requires owners { owners.now ≡ world.now.run.assignment.lanes }
    ensures { IsTrue result ↔ WouldMove world.now.run worker }
{
    if world.waits(worker) {
        return false;
    }
    if !world.is_idle(worker) {
        return true;
    }
    let _lawful = world.schedule();
    leaves_undecided(world.answers(), owners, worker)
}

// Whether one of the worker's operations has no answer yet.
fn leaves_undecided(answers: &[Option<Answer>], owners: &[u8], worker: u8) -> bool
    requires { length answers.now ≡ length owners.now }
    ensures { IsTrue result ↔ LeavesUndecided answers.now owners.now worker }
{
    for place in 0..owners.len() {
        if owners[place] == worker && answers[place].is_none() {
            return true;
        }
    }
    false
}
