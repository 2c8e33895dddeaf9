//! The outcome of a run that has ended.
ghost use Rattle.std.specs.Prelude.{◌≡◌, All, IfOk, IsSome, Some, map};

use blink_batch::Answer;
use std::alloc::{AllocError, Global};

/// Returns all answers, if each place has one.
pub fn all_of(alloc: Global, given: &[Option<Answer>]) -> Result<Vec<Answer>, AllocError>
    requires { All (λ answer. IsSome answer) given.now }
    ensures { IfOk result (λ answers. given.now ≡ map Some answers.items) }
{
    let mut answers = Vec::with_capacity(alloc, given.len())?;
    for answer in given {
        answers.push_reserved(answer.unwrap());
    }
    Ok(answers)
}
