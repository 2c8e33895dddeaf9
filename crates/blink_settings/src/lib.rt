//! The settings, the refusals and the outcome of a run. They stand apart from the threads, so that a command line is proved beside
//! them. `blink_run` exports the settings and the refusals too.
#![tactic(auto)]

mod error;
mod outcome;
mod settings;

pub use error::{RunError, ServeError};
pub use outcome::all_of;
pub use settings::{CutKind, Driver, Settings, SettingsError};
