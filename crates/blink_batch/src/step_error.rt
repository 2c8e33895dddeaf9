//! The refusals of a batch's run. They stand here, below the runs, so that what reports them is proved beside the runs.
ghost use Rattle.std.specs.Prelude.{◌≡◌};
ghost use Rattle.blink_batch.specs.Codes.{code_of_step_error};

use thiserror::Error;

/// Why a run can't begin or can't go on.
#[derive(Clone, Copy, Debug, PartialEq, Eq, Error)]
pub enum StepError {
    /// Memory was refused.
    #[error("out of memory")]
    OutOfMemory,
    /// No worker has this number: it isn't below the number of workers.
    #[error("no worker {0}")]
    NoWorker(u8),
    /// The batch's insertions might need more page numbers than exist.
    #[error("too large")]
    TooLarge,
}

impl StepError {
    /// Returns the refusal's code, the same in every release.
    pub fn code(&self) -> u8
        ensures { result ≡ code_of_step_error self.now }
    {
        match self {
            StepError::OutOfMemory => 30,
            StepError::NoWorker(_) => 31,
            StepError::TooLarge => 32,
        }
    }
}
