//! Turns one after another, with a frame for each.
ghost use Rattle.std.specs.Prelude.{◌≡◌, ◌++◌, ◌<◌, All, IfErr, OnOk, string_bytes};
ghost use Rattle.blink_replay.specs.{IsRefusedMemory};
ghost use Rattle.blink_steps.specs.{HasEnded};
ghost use Rattle.blink_show.specs.Frames.{first_frame};
ghost use Rattle.blink_show.specs.Keeping.{Keeps};
ghost use Rattle.blink_show.specs.Turns.{AddsDrawn, AddsFinish, AddsSchedule};
ghost use Rattle.blink_show.specs.AskedTurns.{AddsAsked, AreOfWorkers};

use crate::draw::draw;
use crate::frame::{Film, TakenTurn};
use blink_settings::{ServeError, Settings};
use blink_steps::World;
use rand_core::SeedableRng;
use rand_xoshiro::SplitMix64;

/// What a script is shown by: its settings, and the turns of its last batch before the finish.
#[derive(Clone, Copy)]
pub(crate) struct Asked<'a> {
    pub settings: &'a Settings,
    pub turns: Turns<'a>,
}

/// The turns before the finish.
#[derive(Clone, Copy)]
pub(crate) enum Turns<'a> {
    /// The turns of a schedule: the worker of each.
    Schedule(&'a [u8]),
    /// The turns of workers that this seed draws, until all operations have ended.
    Seed(u64),
}

/// Adds the frame of the first tree state, takes the turns asked for, and adds a frame for each. The owners are the workers
/// of the batch's operations.
pub(crate) fn show_turns(
    film: &mut Film,
    world: &mut World,
    turns: Turns<'_>,
    owners: &[u8],
) -> Result<(), ServeError>
    requires workers { AreOfWorkers world.old.run.assignment.workers turns }
    requires owners { owners.now ≡ world.old.run.assignment.lanes }
    ensures text { OnOk result (AddsAsked turns.entry world.old world.new
        (string_bytes film.old.text ++ first_frame world.old.run) (string_bytes film.new.text)) }
    ensures kept { OnOk result (Keeps film.new world.new.run) }
    ensures refused { IfErr result IsRefusedMemory }
{
    film.first(world)?;
    match turns {
        Turns::Schedule(schedule) => show_schedule(film, world, schedule),
        Turns::Seed(seed) => show_drawn(film, world, seed, owners),
    }
}

// Takes a turn for each number of the schedule, and adds a frame for each.
fn show_schedule(film: &mut Film, world: &mut World, schedule: &[u8]) -> Result<(), ServeError>
    requires workers { All (λ worker. worker < world.old.run.assignment.workers) schedule.now }
    requires kept { Keeps film.old world.old.run }
    ensures text { OnOk result (AddsSchedule world.old schedule.now world.new
        (string_bytes film.old.text) (string_bytes film.new.text)) }
    ensures kept { OnOk result (Keeps film.new world.new.run) }
    ensures refused { IfErr result IsRefusedMemory }
{
    for &worker in schedule {
        let step = world.step(worker)?;
        let turn = TakenTurn {
            word: "turn ",
            worker,
            step,
        };
        film.turn(turn, world)?;
    }
    Ok(())
}

// Takes turns of workers that the seed draws, until all operations have ended, and adds a frame for each.
fn show_drawn(
    film: &mut Film,
    world: &mut World,
    seed: u64,
    owners: &[u8],
) -> Result<(), ServeError>
    requires owners { owners.now ≡ world.old.run.assignment.lanes }
    requires kept { Keeps film.old world.old.run }
    ensures text { OnOk result (AddsDrawn seed world.old world.new
        (string_bytes film.old.text) (string_bytes film.new.text)) }
    ensures kept { OnOk result (Keeps film.new world.new.run) }
    ensures refused { IfErr result IsRefusedMemory }
{
    let mut chance = SplitMix64::seed_from_u64(seed);
    while let Some(worker) = draw(film.alloc, world, owners, &mut chance)? {
        let step = world.step(worker)?;
        let turn = TakenTurn {
            word: "turn ",
            worker,
            step,
        };
        film.turn(turn, world)?;
    }
    Ok(())
}

/// Takes picked turns until all operations have ended, and adds a frame for each.
pub(crate) fn show_finish(film: &mut Film, world: &mut World) -> Result<(), ServeError>
    requires { Keeps film.old world.old.run }
    ensures text { OnOk result (AddsFinish world.old world.new
        (string_bytes film.old.text) (string_bytes film.new.text)) }
    ensures ended { OnOk result (HasEnded world.new.run) }
    ensures refused { IfErr result IsRefusedMemory }
{
    while let Some(worker) = world.pick() {
        let step = world.advance(worker)?;
        let turn = TakenTurn {
            word: "finish ",
            worker,
            step,
        };
        film.turn(turn, world)?;
    }
    Ok(())
}
