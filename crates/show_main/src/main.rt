//! The program `blink-show`: it replays a script of operations on standard input and writes a page to look at.
#![tactic(auto)]

mod page;
mod program;

use blink_show::Template;
use page::{HEAD, TAIL};
use program::carry_out;
use show_command::{ProgramError, end_of};
use std::process::ExitCode;
use std::rt::Env;
use std::{env, io};

// Reads the command line, and does what it asks for.
fn blink_show(rt: &(impl Env + Input + Print + AllocGlobal)) -> Result<(), ProgramError> {
    let alloc = rt.alloc();
    let words: Vec<String> = match env::args(rt) {
        Ok(words) => words.collect(alloc)?,
        Err(_) => return Err(ProgramError::Memory),
    };
    let texts: Vec<&str> = words.iter().map(|word| word.as_str()).collect(alloc)?;
    let texts = texts.as_slice();
    let template = Template {
        head: HEAD,
        tail: TAIL,
    };
    carry_out(
        alloc,
        texts,
        template,
        &mut rt.reader(),
        &mut io::writer(rt),
    )
}

fn main(rt: HostRuntime) -> ExitCode {
    end_of(blink_show(&rt)).tell(&rt)
}
