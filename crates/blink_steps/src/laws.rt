//! Laws of worlds and of turns. Each stands on a function that does nothing.
ghost use Rattle.blink_steps.specs.Laws.{IdleWorkersDontMatter, StepsAreTurns, TurnsAreSteps};
ghost use Rattle.blink_steps.specs.Promises.{IsPromised};
ghost use Rattle.blink_steps.specs.World.{IsWorld};

use crate::world::World;
pub use blink_machine::laws::{reads_have_one_result, step_keeps};

/// States that a world is the world of its own schedule, over the tree, the batch and the lanes that it began with. So whoever
/// has a world may use of it what is promised of every schedule.
pub fn each_world_is_of_its_schedule(world: &World)
    ensures of_its_schedule { IsWorld world.now }
    ensures promised { IsPromised world.now }
{
    let _answers = world.answers();
    let _schedule = world.schedule();
}

/// States that turns are steps. Each turn that moves or waits is an atomic step between the tree states before and after it. The
/// step is that of the table of states, for any pages and any free number, with the number after the last one for a new page.
/// Each such step is a turn.
pub fn turns_are_steps()
    ensures turns { TurnsAreSteps }
    ensures steps { StepsAreTurns }
{}

/// States that idle workers don't matter. The invariant holds for a tree state with one more idle worker exactly if it holds
/// without that worker.
pub fn idle_workers_dont_matter()
    ensures { IdleWorkersDontMatter }
{}
