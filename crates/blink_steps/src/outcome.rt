//! The outcome of a run: what is decided, and how far each operation has come.
ghost use Rattle.std.specs.Prelude.{◌≡◌, ◌<◌, true, length, slice_index_or, IfOk};
ghost use Rattle.blink_steps.specs.Outcome.{decides_now, empty_outcome, recorded};

use blink_batch::Answer;
use blink_machine::Kind;
use std::alloc::{AllocError, Global};
use std::marker::Model;

/// The answers so far, the order of the deciding steps, and for each operation the number of pages it has read and the number of
/// steps it has taken.
#[derive(Drop)]
pub(crate) struct Outcome {
    pub answers: Vec<Option<Answer>>,
    pub order: Vec<u32>,
    pub reads: Vec<u64>,
    pub moves: Vec<u64>,
}

impl Model for Outcome {
    ghost use Rattle.std.specs.Prelude.{◌≡◌, ◌≤◌, length, vec_capacity};
    ghost use Rattle.blink_steps.specs.Outcome.{PlainOutcome};

    ghost Value = { PlainOutcome };

    ghost view = { λ l. record {
      answers = l.answers.items;
      order = l.order.items;
      reads = l.reads.items;
      moves = l.moves.items;
    } };

    // The order has room for each operation, so that no deciding step is refused memory.
    ghost invariant = { λ l. (length l.answers.items ≤ vec_capacity l.order)
        × (length l.reads.items ≡ length l.answers.items) × (length l.moves.items ≡ length l.answers.items) };
}

impl Outcome {
    /// Makes the outcome of `places` operations before any step.
    pub(crate) fn new(alloc: Global, places: usize) -> Result<Outcome, AllocError>
        ensures { IfOk result (λ outcome. outcome ≡ empty_outcome places) }
    {
        Ok(Outcome {
            answers: vec![in alloc; None; places]?,
            order: Vec::with_capacity(alloc, places)?,
            reads: vec![in alloc; 0; places]?,
            moves: vec![in alloc; 0; places]?,
        })
    }

    /// Records a step of the operation at a place: its kind, and the operation's answer before and after it.
    pub(crate) fn note(
        &mut self,
        place: u32,
        kind: Kind,
        before: Option<Answer>,
        after: Option<Answer>,
    )
        requires place { place < length self.old.answers }
        requires room { decides_now before after ≡ true
            → length self.old.order < length self.old.answers }
        requires reads { slice_index_or self.old.reads place 0 < u64.MAX }
        requires moves { slice_index_or self.old.moves place 0 < u64.MAX }
        ensures { self.new ≡ recorded self.old place kind before after }
    {
        let at = place as usize;
        if before.is_none() && after.is_some() {
            self.order.push_reserved(place);
        }
        self.answers[at] = after;
        if matches!(kind, Kind::ReadPage(_)) {
            self.reads[at] += 1;
        }
        self.moves[at] += 1;
    }
}
