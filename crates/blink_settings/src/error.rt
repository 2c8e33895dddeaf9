//! The refusals of a batch's run, and of serving a script.
ghost use Rattle.std.specs.Prelude.{◌≡◌};
ghost use Rattle.blink_settings.specs.Codes.{code_of, code_of_serve_error};

use blink_batch::{ScriptError, StepError};
use std::alloc::AllocError;
use thiserror::Error;

/// Why a batch isn't run. The index is then as it was.
#[derive(Clone, Copy, Debug, PartialEq, Eq, Error)]
pub enum RunError {
    /// The batch's insertions might need more page numbers than exist.
    #[error("too large")]
    TooLarge,
    /// Memory was refused.
    #[error("out of memory")]
    OutOfMemory,
    /// This worker's thread couldn't be started, and those of all smaller workers could.
    #[error("worker {0} not started")]
    Worker(u8),
    /// The book that came out of the lock isn't this run's, or isn't at its end. No run meets this refusal.
    #[error("foreign book")]
    Foreign,
}

impl RunError {
    /// Returns the refusal's code, the same in every release.
    pub fn code(&self) -> u8
        ensures { result ≡ code_of self.now }
    {
        match self {
            RunError::TooLarge => 60,
            RunError::OutOfMemory => 61,
            RunError::Worker(_) => 62,
            RunError::Foreign => 63,
        }
    }
}

/// Why a script isn't served.
#[derive(Clone, Copy, Debug, PartialEq, Eq, Error)]
pub enum ServeError {
    /// The text is no script.
    #[error("{0}")]
    Script(ScriptError),
    /// The batch of this number, counted from 1, isn't run.
    #[error("batch {0}: {1}")]
    Run(u64, RunError),
    /// A step of a replay isn't taken.
    #[error("{0}")]
    Step(StepError),
    /// The writer failed.
    #[error("write failed")]
    Output,
    /// Memory was refused, but neither to the reading of the script, nor to a run, nor to a step.
    #[error("out of memory")]
    OutOfMemory,
}

impl ServeError {
    /// Returns the refusal's code, the same in every release. If the refusal is the script's, the run's or the step's, it is
    /// that one's code.
    pub fn code(&self) -> u8
        ensures { result ≡ code_of_serve_error self.now }
    {
        match self {
            ServeError::Script(error) => error.code(),
            ServeError::Run(_, error) => error.code(),
            ServeError::Step(error) => error.code(),
            ServeError::Output => 70,
            ServeError::OutOfMemory => 71,
        }
    }
}

impl From<ScriptError> for ServeError {
    ghost use Rattle.std.specs.Prelude.{◌≡◌};
    ghost use Rattle.blink_settings.specs.declared.error.ServeError.TheVariants.{Script};

    ghost from_gives = { λ error told. told ≡ Script error };

    fn from(error: ScriptError) -> ServeError {
        ServeError::Script(error)
    }
}

impl From<StepError> for ServeError {
    ghost use Rattle.std.specs.Prelude.{◌≡◌};
    ghost use Rattle.blink_settings.specs.declared.error.ServeError.TheVariants.{Step};

    ghost from_gives = { λ error told. told ≡ Step error };

    fn from(error: StepError) -> ServeError {
        ServeError::Step(error)
    }
}

impl From<AllocError> for ServeError {
    ghost use Rattle.std.specs.Prelude.{◌≡◌};
    ghost use Rattle.blink_settings.specs.declared.error.ServeError.TheVariants.{OutOfMemory};

    ghost from_gives = { λ _ told. told ≡ OutOfMemory };

    fn from(_: AllocError) -> ServeError {
        ServeError::OutOfMemory
    }
}
