//! The end of a program.
ghost use Rattle.std.specs.Prelude.{◌≡◌, IfOk, string_bytes};
ghost use Rattle.std.specs.Process.{exit_status};
ghost use Rattle.blink_command.specs.Codes.{status_of, status_of_end};
ghost use Rattle.blink_command.specs.End.{IsLineOf, failure_of};
ghost use Rattle.blink_command.specs.declared.end.ProgramError.TheVariants.{Serve};

use crate::line::LineError;
use blink_settings::ServeError;
use std::alloc::{AllocError, Global};
use std::fmt;
use std::process::ExitCode;

/// The exit status if the command line asks for nothing.
pub const USAGE: u8 = 2;

/// The exit status if the text is no script.
pub const SCRIPT: u8 = 3;

/// The exit status if a batch wasn't run, a step wasn't taken, or memory was refused.
pub const RUN: u8 = 4;

/// The exit status if the output couldn't be written.
pub const OUTPUT: u8 = 5;

/// Why the program didn't do what it was asked for.
#[derive(Debug, Drop)]
pub enum ProgramError {
    /// The command line asks for nothing.
    Line(LineError),
    /// The script wasn't served.
    Serve(ServeError),
    /// Memory was refused, but neither to the reading of the words nor to the serving of the script.
    Memory,
}

impl From<AllocError> for ProgramError {
    ghost use Rattle.blink_command.specs.declared.end.ProgramError.TheVariants.{Memory};

    ghost from_gives = { λ _ error. error ≡ Memory };

    fn from(_error: AllocError) -> ProgramError {
        ProgramError::Memory
    }
}

/// Writes the lines for standard error, without the last one's line feed.
impl fmt::Display for ProgramError {
    ghost use Rattle.blink_command.specs.End.{lines_of};

    ghost output = { lines_of };

    fn fmt<W: fmt::Write>(&self, f: &mut fmt::Formatter<W>) -> fmt::Result {
        match self {
            ProgramError::Line(LineError::Usage(text)) => f.write_str(text.as_str().trim_end()),
            ProgramError::Serve(ServeError::Script(error)) => write!(f, "script: {error}"),
            ProgramError::Serve(error @ (ServeError::Run(_, _) | ServeError::Step(_))) => {
                write!(f, "run: {error}")
            }
            ProgramError::Serve(ServeError::Output) => f.write_str("output: write failed"),
            ProgramError::Line(LineError::OutOfMemory)
            | ProgramError::Serve(ServeError::OutOfMemory)
            | ProgramError::Memory => f.write_str("run: out of memory"),
        }
    }
}

/// The end of a program.
#[derive(Debug, Drop)]
pub struct End {
    /// The exit status.
    pub status: u8,
    /// The reason for standard error, if the program failed.
    pub failure: Option<ProgramError>,
}

impl End {
    /// Writes to standard error why the program didn't do what it was asked for, and returns the status for the process to end
    /// with. Lines that can't be written are lost.
    pub fn tell<R: Eprint>(&self, rt: &R) -> ExitCode
        ensures { exit_status result ≡ self.now.status }
    {
        if let Some(failure) = &self.failure {
            let _ = eprintln!(rt; "{failure}");
        }
        ExitCode::from(self.status)
    }
}

/// Returns the end of the program after this outcome. The call takes no memory, so it reports each refusal as itself.
pub fn end_of(outcome: Result<(), ProgramError>) -> End
    ensures status { result.status ≡ status_of_end outcome }
    ensures failure { result.failure ≡ failure_of outcome }
{
    match outcome {
        Ok(()) => End {
            status: 0,
            failure: None,
        },
        Err(error) => End {
            status: status_of(&error),
            failure: Some(error),
        },
    }
}

/// Returns how the program reports a script that it couldn't serve: its exit status, and a line for standard error without its
/// line feed. The program itself writes the same line piece by piece, and so needs no memory for it.
pub fn fault(alloc: Global, error: &ServeError) -> Result<(u8, String), AllocError>
    ensures status { IfOk result (λ told. told.0 ≡ status_of (Serve error.now)) }
    ensures fixed { IfOk result (λ told. IsLineOf (Serve error.now) (string_bytes told.1)) }
{
    let failure = ProgramError::Serve(*error);
    let line = format!(in alloc; "{failure}")?;
    Ok((status_of(&failure), line))
}

// The exit status after an error.
fn status_of(error: &ProgramError) -> u8
    ensures { result ≡ status_of error.now }
{
    match error {
        ProgramError::Line(LineError::Usage(_)) => USAGE,
        ProgramError::Serve(ServeError::Script(_)) => SCRIPT,
        ProgramError::Serve(ServeError::Output) => OUTPUT,
        ProgramError::Line(LineError::OutOfMemory)
        | ProgramError::Serve(ServeError::Run(_, _) | ServeError::Step(_) | ServeError::OutOfMemory)
        | ProgramError::Memory => RUN,
    }
}
