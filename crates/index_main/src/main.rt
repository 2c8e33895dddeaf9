//! The program `blink`: it reads a script of operations on standard input and prints their answers.
#![tactic(auto)]

ghost use Rattle.std.specs.Prelude.{◌≡◌};

mod appending;
mod program;

use appending::{Appending, Before};
use blink_command::{Line, ProgramError, end_of, read_line};
use program::carry_out;
use std::alloc::Global;
use std::io::{BufWriter, Write};
use std::marker::Brand;
use std::process::ExitCode;
use std::rt::Env;
use std::sync::Wait;
use std::thread::Threads;
use std::{env, io};

// The size of the output's buffer in bytes. The input's is csv's own.
const BUFFER: usize = 64 * 1024;

// Reads the command line, and does what it asks for.
fn blink(
    rt: &(impl Env + Input + Print + AllocGlobal + Threads + Wait + Sync),
) -> Result<(), ProgramError> {
    let alloc = rt.alloc();
    let line = line_of_words(rt, alloc)?;
    write_to::<Brand, _, _>(rt, alloc, &line, io::writer(rt))
}

// Does what the command line asks for, with a buffer before this writer.
fn write_to<B: Before, T: Input + Threads + Wait + Sync, W: Write + Drop>(
    rt: &T,
    alloc: Global,
    line: &Line,
    writer: W,
) -> Result<(), ProgramError>
    requires { B.before ≡ W.contents writer }
{
    let kept = Appending::<B, W>::new(writer);
    let Ok(mut output) = BufWriter::with_capacity(alloc, BUFFER, kept) else {
        return Err(ProgramError::Memory);
    };
    let outcome = carry_out(rt, alloc, line, &mut rt.reader(), &mut output);
    // Bytes are left in the buffer only if the writer failed. They aren't written again, as they would be when the buffer is
    // dropped.
    let _ = output.into_parts();
    match outcome {
        Ok(_index) => Ok(()),
        Err(error) => Err(ProgramError::Serve(error)),
    }
}

// What the command line asks for.
fn line_of_words(rt: &(impl Env + AllocGlobal), alloc: Global) -> Result<Line, ProgramError> {
    let words: Vec<String> = match env::args(rt) {
        Ok(words) => words.collect(alloc)?,
        Err(_) => return Err(ProgramError::Memory),
    };
    let texts: Vec<&str> = words.iter().map(|word| word.as_str()).collect(alloc)?;
    read_line(alloc, texts.as_slice()).map_err(ProgramError::Line)
}

fn main(rt: HostRuntime) -> ExitCode {
    end_of(blink(&rt)).tell(&rt)
}
