//! Closing a growing map.
ghost use Rattle.std.specs.Prelude.{◌≡◌, [], All, IfErr, IfOk};
ghost use Rattle.blink_index.specs.{map_of};
ghost use Rattle.blink_map.specs.Closing.{HasEnded, HasJoined, IsClosedWith, IsUnclosed};
ghost use Rattle.blink_map.specs.Renewing.{IsRefusal};
ghost use Rattle.blink_map.specs.Sessions.{IsSessionOf, places_of};
ghost use Rattle.blink_map.specs.Steps.{AreCompared};

use crate::copy::{Begun, Copied};
use crate::error::GrowError;
use crate::gather::tell_all;
use crate::growing::{GrowingMap, Session, Unclosed};
use crate::slots::{Compare, Current, PutTogether, SlotView};
use crate::waiting::CLOSE;
use atomic_table::Seat;
use blink_index::Index;
use std::alloc::Global;

impl GrowingMap {
    /// How many places for sessions the map has. It is opened with as many sessions, and never has others.
    pub fn places(&self) -> usize
        ensures { result ≡ places_of self.now }
    {
        self.table.slot_count()
    }

    /// Closes the map, and returns an index of its entries, in as few pages as they need. The index that was opened stays as it was.
    /// The entries are the opening ones after one list of changes, that of all maps. It goes on from all that each of these sessions has
    /// seen; of the changes at their places it has exactly those that are counted as theirs. Sessions needn't come back. If all do,
    /// nobody else has made a change.
    ///
    /// The call is refused with `OutOfMemory`, if memory was refused; with `TooLarge`, if the entries need more than 1,048,575 pages;
    /// and with `Busy`, if a session was lost in the midst of a call. It gives back the map and the sessions then.
    pub fn close(self, alloc: Global, sessions: Vec<Session>) -> Result<Index, Unclosed>
        requires its_own { All (IsSessionOf self) sessions.items }
        ensures entries { IfOk result (λ index. IsClosedWith self sessions.items (map_of index)) }
        ensures fan { IfOk result (λ index. index.fan ≡ self.fan) }
        ensures unclosed { IfErr result (IsUnclosed self sessions.items) }
    {
        match self.end(alloc) {
            Ok((index, mut seat)) => {
                self.join_all(&mut seat, sessions);
                Ok(index)
            }
            Err(refusal) => Err(Unclosed {
                map: self,
                sessions,
                refusal,
            }),
        }
    }

    // The index of the entries, and the seat that has taken all slots. Where that is refused, the sessions are put back.
    fn end(&self, alloc: Global) -> Result<(Index, Seat<Option<Current>, SlotView>), GrowError>
        ensures ended { IfOk result (λ ended. HasEnded self.now ended.1 (map_of ended.0)) }
        ensures fan { IfOk result (λ ended. ended.0.fan ≡ self.now.fan) }
        ensures refused { IfErr result IsRefusal }
    {
        let Begun {
            mut seat,
            lead,
            others,
        } = match self.begin(alloc, 0, CLOSE) {
            Ok(begun) => begun,
            Err(refusal) => return Err(refusal),
        };
        match self.copy(alloc, &mut seat, lead, others, CLOSE) {
            Ok(copied) => {
                let Copied {
                    mut lead,
                    others,
                    index,
                } = copied;
                tell_all(&mut lead, others);
                Ok((index, seat))
            }
            Err(refusal) => Err(refusal),
        }
    }

    // The seat takes all these sessions too, and compares what they know with what was known in the slots.
    fn join_all(&self, seat: &mut Seat<Option<Current>, SlotView>, mut sessions: Vec<Session>)
        requires its_own { All (IsSessionOf self.now) sessions.items }
        requires table { seat.old.table_id ≡ self.now.table.shared.table_id }
        requires no_account { seat.old.me.0.accounts ≡ [] }
        ensures joined { HasJoined sessions.items seat.old seat.new }
        ensures compared { AreCompared seat.new.me.0 }
    {
        while let Some(session) = sessions.pop() {
            let Session { seat: own, slot: _ } = session;
            self.table.shared.join_seat::<PutTogether>(seat, own);
        }
        self.table.shared.load::<Compare>(seat, 0);
    }
}
