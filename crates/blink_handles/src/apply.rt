//! Carrying operations out on an index in place, up to the first that is refused.
ghost use Rattle.std.specs.Prelude.{◌≡◌, IfErr, IfOk, length};
ghost use Rattle.blink_handles.specs.Edits.{HasApplied, IsApplyRefusal};

use crate::raw::{RawAnswer, RawOperation};
use crate::refusal::Refusal;
use blink_index::{EditError, Index};
use std::alloc::Global;

/// Carries the operations out up to the first that is refused. After a deletion it compacts the index where that is sparse.
pub fn apply(
    alloc: Global,
    index: &mut Index,
    operations: &[RawOperation],
    answers: &mut [RawAnswer],
    carried_out: &mut usize,
) -> Result<(), Refusal>
    ensures applied { HasApplied index.old operations.now carried_out.new
        answers.old answers.new index.new }
    ensures all { IfOk result (λ _. carried_out.new ≡ length operations.now) }
    ensures refused { IfErr result
        (IsApplyRefusal index.new operations.now (length answers.old) carried_out.new) }
{
    *carried_out = 0;
    if answers.len() != operations.len() {
        return Err(Refusal::WrongLength);
    }
    for place in 0..operations.len() {
        let Some(op) = operations[place].op() else {
            return Err(Refusal::UnknownOperation);
        };
        match index.edit_and_compact(alloc, op) {
            Ok(answer) => answers[place] = RawAnswer::of(answer),
            Err(EditError::TooLarge) => return Err(Refusal::TooLarge),
            Err(EditError::OutOfMemory) => return Err(Refusal::OutOfMemory),
        }
        *carried_out = place + 1;
    }
    Ok(())
}
