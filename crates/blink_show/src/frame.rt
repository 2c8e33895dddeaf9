//! Frames: each shows what has changed since the one before.
ghost use Rattle.std.specs.Prelude.{◌≡◌, ◌++◌, [], Some, OnOk, map, option_map, string_bytes};
ghost use Rattle.blink_steps.specs.{PlainRun};
ghost use Rattle.blink_show.specs.Frames.{changed, changes, first_frame, frame, unless_same};
ghost use Rattle.blink_show.specs.Keeping.{Keeps};

use crate::line::{lines_of, push_decided};
use blink_replay::push_turn;
use blink_steps::{Step, World};
use std::alloc::{AllocError, Global};

/// A turn that was taken: the word that its frame's heading begins with, its worker, and its result.
#[derive(Clone, Copy)]
pub(crate) struct TakenTurn<'a> {
    pub word: &'a str,
    pub worker: u8,
    pub step: Step,
}

/// A text that grows by frames. Beside it stands what the next frame is compared with: the lines of the last
/// frame, and the number of operations that had decided then.
#[derive(Drop)]
pub(crate) struct Film {
    pub alloc: Global,
    pub text: String,
    lines: Vec<String>,
    decided: usize,
}

impl Film {
    /// A film with an empty text.
    pub(crate) fn new(alloc: Global) -> Film
        ensures { string_bytes result.text ≡ [] }
    {
        Film {
            alloc,
            text: String::new(alloc),
            lines: Vec::new(alloc),
            decided: 0,
        }
    }

    /// Adds the frame of the first tree state. It is compared with nothing, so that it shows all lines.
    pub(crate) fn first(&mut self, world: &World) -> Result<(), AllocError>
        ensures text { OnOk result
            (string_bytes self.new.text ≡ string_bytes self.old.text ++ first_frame world.now.run) }
        ensures kept { OnOk result (Keeps self.new world.now.run) }
    {
        self.lines.clear();
        self.decided = 0;
        self.text.push_str("first\n")?;
        self.show(world)
    }

    /// Adds the frame of the turn that has led to this world.
    pub(crate) fn turn(&mut self, turn: TakenTurn<'_>, world: &World) -> Result<(), AllocError>
        ensures text { (before : PlainRun) → Keeps self.old before → OnOk result
            (string_bytes self.new.text ≡ string_bytes self.old.text
            ++ frame turn.entry.word.now before turn.entry.worker turn.entry.step world.now.run) }
        ensures kept { OnOk result (Keeps self.new world.now.run) }
    {
        self.text.push_str(turn.word)?;
        push_turn(&mut self.text, turn.worker, turn.step)?;
        self.show(world)
    }

    // Adds what has changed since the last frame, and remembers the world's lines.
    fn show(&mut self, world: &World) -> Result<(), AllocError>
        ensures text { OnOk result (string_bytes self.new.text ≡ string_bytes self.old.text
            ++ changes (map string_bytes self.old.lines.items) self.old.decided world.now.run) }
        ensures kept { OnOk result (Keeps self.new world.now.run) }
    {
        let lines = lines_of(self.alloc, world)?;
        push_changed(&mut self.text, &self.lines, &lines)?;
        let order = world.order();
        push_decided(
            &mut self.text,
            world.answers(),
            order.get(self.decided..).unwrap_or(&[]),
        )?;
        self.lines = lines;
        self.decided = order.len();
        Ok(())
    }
}

// Adds the lines of `new` that differ from the line of `old` at the same place.
fn push_changed(text: &mut String, old: &[String], new: &[String]) -> Result<(), AllocError>
    ensures { OnOk result (string_bytes text.new ≡ string_bytes text.old
        ++ changed (map string_bytes old.now) (map string_bytes new.now)) }
{
    for place in 0..new.len() {
        push_unless_same(text, old.get(place), &new[place])?;
    }
    Ok(())
}

// Adds a line, unless it equals the one before.
fn push_unless_same(
    text: &mut String,
    before: Option<&String>,
    line: &String,
) -> Result<(), AllocError>
    ensures { OnOk result (string_bytes text.new ≡ string_bytes text.old
        ++ unless_same (option_map (λ before. string_bytes before.now) before.entry)
        (Some (string_bytes line.now))) }
{
    match before {
        Some(before) if before.as_str() == line.as_str() => Ok(()),
        _ => text.push_str(line.as_str()),
    }
}
