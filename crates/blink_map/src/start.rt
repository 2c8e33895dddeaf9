//! An operation of a held session that changes a growing map, in one go: where it meets nobody, it ends at once.
ghost use Rattle.std.specs.Prelude.{IfErr, IfOk};
ghost use Rattle.blink_batch.specs.{FitsWords};
ghost use Rattle.blink_machine.specs.{IsUpdate};
ghost use Rattle.blink_map.specs.Holding.{IsAnsweredHeld, IsHeldOf};
ghost use Rattle.blink_map.specs.Pendings.{HasStopped};

use crate::counts::counted;
use crate::growing::GrowingMap;
use crate::held::{Held, PendingHeld, StoppedHeld};
use crate::slots::Current;
use blink_batch::{Answer, Op};
use blink_generation::Stopped;
use std::snapshot::Snapshot;

impl GrowingMap {
    /// Runs an operation that changes the map, by a held session, as `Map::start` of `blink_generation` does in the current map. It answers as
    /// `try_change` does. The call takes no memory, waits for nobody, and returns.
    ///
    /// It stops where the session lacks room for the operation in the current map, and has changed nothing then. It also stops where the
    /// operation waits after `tries` steps in vain, at least one: then `advance` takes its next steps, and the session stays held.
    pub fn start(&self, held: Held, op: Op, tries: u32) -> Result<(Held, Answer), StoppedHeld>
        requires its_own { IsHeldOf self.now held }
        requires updates { IsUpdate op }
        requires fits { FitsWords op }
        ensures answered { IfOk result (λ ended. IsAnsweredHeld self.now op held ended.0 ended.1) }
        ensures stopped { IfErr result (HasStopped self.now op held) }
    {
        let outcome = self.start_in_current(held, op, tries);
        if let Ok((_, answer)) = &outcome {
            self.count(op, *answer);
        }
        outcome
    }

    // What `start` does, but that no change is counted.
    fn start_in_current(
        &self,
        held: Held,
        op: Op,
        tries: u32,
    ) -> Result<(Held, Answer), StoppedHeld>
        requires its_own { IsHeldOf self.now held }
        requires updates { IsUpdate op }
        requires fits { FitsWords op }
        ensures answered { IfOk result (λ ended. IsAnsweredHeld self.now op held ended.0 ended.1) }
        ensures stopped { IfErr result (HasStopped self.now op held) }
    {
        let begun = Snapshot::of(&held);
        let Held {
            seat,
            slot,
            current,
        } = held;
        let Current {
            map,
            session,
            number,
            changes,
        } = current;
        match map.start(session, op, tries) {
            Ok((session, answer)) => {
                let current = Current {
                    map,
                    session,
                    number,
                    changes: counted(changes, answer),
                };
                let held = Held {
                    seat,
                    slot,
                    current,
                };
                Ok((held, answer))
            }
            Err(Stopped::Full(session)) => {
                let current = Current {
                    map,
                    session,
                    number,
                    changes,
                };
                Err(StoppedHeld::Full(Held {
                    seat,
                    slot,
                    current,
                }))
            }
            Err(Stopped::Waits(now)) => Err(StoppedHeld::Waits(PendingHeld {
                seat,
                slot,
                map,
                number,
                changes,
                now,
                begun,
            })),
        }
    }
}
