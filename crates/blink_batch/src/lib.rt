//! The plain side of the index: operations and answers, a sorted list that one thread works on, batches of operations and their
//! cuts among workers, and the scripts that ask for batches, scans and pages.
#![tactic(auto)]

mod batch;
mod cut;
mod error;
mod lanes;
mod last_places;
pub mod laws;
mod number;
mod parts;
mod plain;
mod record;
mod script;
mod step_error;

pub use batch::{BATCH_LIMIT, Batch, BatchError};
pub use blink_operation::{Answer, Entry, Op};
pub use cut::{Cut, CutError, WORKER_LIMIT};
pub use error::{RecordError, ScriptError};
pub use lanes::Lanes;
pub use number::read_number;
pub use plain::Plain;
pub use script::{Part, Script, read_script};
pub use step_error::StepError;
