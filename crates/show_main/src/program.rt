//! The program's work for a command line.
ghost use Rattle.std.specs.Prelude.{◌≡◌, IfErr, OnOk};
ghost use Rattle.clap.specs.Walk.{texts};
ghost use Rattle.blink_replay.specs.{WritesText};
ghost use Rattle.blink_show.specs.{LeavesShow};
ghost use Rattle.show_main.specs.Program.{IsFault, IsPage, Leaves, TellsFault, WritesPage};

use blink_settings::{ServeError, Settings};
use blink_show::{Template, serve_seed, serve_show};
use show_command::{ProgramError, Turns, read_show};
use std::alloc::Global;
use std::io::{Read, Write};

/// Does what the words of a command line ask for, the program's name first. It reads the script and writes the page of its
/// replay, with the frames between the template's head and tail. If the words ask for nothing, nothing is read. After a refusal
/// nothing was written, unless the writer failed: then a prefix of the page was.
pub fn carry_out<R: Read, W: Write>(
    alloc: Global,
    words: &[&str],
    template: Template<'_>,
    reader: &mut R,
    writer: &mut W,
) -> Result<(), ProgramError>
    ensures written { OnOk result
        (WritesPage template.entry.head.now template.entry.tail.now (texts words.now)
        (R.remaining reader.old) (W.contents writer.old) (W.contents writer.new)) }
    ensures fault { IfErr result (IsFault (texts words.now) (R.remaining reader.old)) }
    ensures left { IfErr result (λ error.
        Leaves template.entry.head.now template.entry.tail.now (texts words.now)
        (R.remaining reader.old) error (W.contents writer.old) (W.contents writer.new)) }
{
    let (settings, turns) = match read_show(alloc, words) {
        Ok(asked) => asked,
        Err(error) => return Err(ProgramError::Line(error)),
    };
    match show(alloc, &settings, &turns, template, reader, writer) {
        Ok(()) => Ok(()),
        Err(error) => Err(ProgramError::Serve(error)),
    }
}

// Writes the page of these turns.
fn show<R: Read, W: Write>(
    alloc: Global,
    settings: &Settings,
    turns: &Turns,
    template: Template<'_>,
    reader: &mut R,
    writer: &mut W,
) -> Result<(), ServeError>
    ensures written { OnOk result (WritesText
        (IsPage template.entry.head.now template.entry.tail.now settings.now turns.now)
        (R.remaining reader.old) (W.contents writer.old) (W.contents writer.new)) }
    ensures fault { IfErr result (TellsFault settings.now turns.now (R.remaining reader.old)) }
    ensures left { IfErr result (λ error. LeavesShow
        (IsPage template.entry.head.now template.entry.tail.now settings.now turns.now)
        (R.remaining reader.old) error (W.contents writer.old) (W.contents writer.new)) }
{
    match turns {
        Turns::Schedule(schedule) => {
            serve_show(alloc, reader, writer, settings, schedule, template)
        }
        Turns::Seed(seed) => serve_seed(alloc, reader, writer, settings, *seed, template),
    }
}
