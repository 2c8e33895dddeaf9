//! The export that runs a batch over an index by one thread, in the order of its operations.
ghost use Rattle.std.specs.Prelude.{◌≡◌, ◌≢◌, length};
ghost use Rattle.blink_handles.specs.Codes.{TellsWhy, code_of};
ghost use Rattle.blink_handles.specs.{HasRun, IsRunRefusal};

use crate::index_handle::IndexHandle;
use blink_handles::batch::run;
use blink_handles::raw::{RawAnswer, RawOperation};
use blink_handles::refusal::{Code, code_of};
use std::alloc::Global;

/// Runs a batch of operations on the index, one after another, and gives the answer of each at its place. A refusal leaves the
/// index and the answers as they were.
#[unsafe(no_mangle)]
pub extern "C" fn blink_index_run(
    alloc: Global,
    index: &mut IndexHandle,
    operations: &[RawOperation],
    answers: &mut [RawAnswer],
) -> Code
    ensures ran { result ≡ 0 → HasRun index.old.value operations.now answers.new index.new.value }
    ensures refused { TellsWhy code_of
        (IsRunRefusal index.old.value operations.now (length answers.old)) result }
    ensures unchanged { result ≢ 0
        → (index.new.value ≡ index.old.value) × (answers.new ≡ answers.old) }
{
    code_of(&run(alloc, index.get(), operations, answers))
}
