//! An operation of a held session that has begun, and waits: its next steps.
ghost use Rattle.std.specs.Prelude.{IfErr, IfOk};
ghost use Rattle.blink_map.specs.Holding.{IsAnsweredHeld};
ghost use Rattle.blink_map.specs.Pendings.{GoesOn, IsPendingOf, held_of, op_of};

use crate::counts::counted;
use crate::growing::GrowingMap;
use crate::held::{Held, PendingHeld};
use crate::slots::Current;
use blink_batch::Answer;

impl GrowingMap {
    /// Takes the next steps of an operation of a held session. It returns the session and the operation's answer once the operation has
    /// ended. It gives the operation back after `tries` steps in vain, at least one. The next call goes on from there. The call takes no
    /// memory, waits for nobody, and returns.
    pub fn advance(&self, pending: PendingHeld, tries: u32) -> Result<(Held, Answer), PendingHeld>
        requires its_own { IsPendingOf self.now pending }
        ensures answered { IfOk result
            (λ ended. IsAnsweredHeld self.now (op_of pending) (held_of pending) ended.0 ended.1) }
        ensures goes_on { IfErr result (GoesOn self.now pending) }
    {
        let outcome = self.advance_in_current(pending, tries);
        if let Ok((_, answer)) = &outcome {
            self.count_waited(*answer);
        }
        outcome
    }

    // What `advance` does, but that no change is counted.
    fn advance_in_current(
        &self,
        pending: PendingHeld,
        tries: u32,
    ) -> Result<(Held, Answer), PendingHeld>
        requires its_own { IsPendingOf self.now pending }
        ensures answered { IfOk result
            (λ ended. IsAnsweredHeld self.now (op_of pending) (held_of pending) ended.0 ended.1) }
        ensures goes_on { IfErr result (GoesOn self.now pending) }
    {
        let PendingHeld {
            seat,
            slot,
            map,
            number,
            changes,
            now,
            begun,
        } = pending;
        match map.advance(now, tries) {
            Ok((session, answer)) => {
                let current = Current {
                    map,
                    session,
                    number,
                    changes: counted(changes, answer),
                };
                let held = Held {
                    seat,
                    slot,
                    current,
                };
                Ok((held, answer))
            }
            Err(now) => Err(PendingHeld {
                seat,
                slot,
                map,
                number,
                changes,
                now,
                begun,
            }),
        }
    }
}
