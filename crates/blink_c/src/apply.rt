//! The export that carries operations out on an index in place, up to the first that is refused.
ghost use Rattle.std.specs.Prelude.{◌≡◌, length};
ghost use Rattle.blink_handles.specs.Codes.{TellsWhy, code_of};
ghost use Rattle.blink_handles.specs.{HasApplied, IsApplyRefusal};

use crate::index_handle::IndexHandle;
use blink_handles::apply::apply;
use blink_handles::raw::{RawAnswer, RawOperation};
use blink_handles::refusal::{Code, code_of};
use std::alloc::Global;

/// Carries operations out in place, one after another, up to the first that is refused, and gives the answer of each at its
/// place. It stores how many were carried out. The other places stay as they were.
#[unsafe(no_mangle)]
pub extern "C" fn blink_index_apply(
    alloc: Global,
    index: &mut IndexHandle,
    operations: &[RawOperation],
    answers: &mut [RawAnswer],
    carried_out: &mut usize,
) -> Code
    ensures applied { HasApplied index.old.value operations.now carried_out.new
        answers.old answers.new index.new.value }
    ensures all { result ≡ 0 → carried_out.new ≡ length operations.now }
    ensures refused { TellsWhy code_of
        (IsApplyRefusal index.new.value operations.now (length answers.old) carried_out.new) result }
{
    code_of(&apply(alloc, index.get(), operations, answers, carried_out))
}
