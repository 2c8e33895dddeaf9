//! Copying a growing map: all its sessions are gathered, and an index is made of its entries.
ghost use Rattle.std.specs.Prelude.{◌≡◌, ◌<◌, ◌≤◌, [], suc, IfErr, IfOk, vec_capacity};
ghost use Rattle.blink_index.specs.{map_of};
ghost use Rattle.blink_map.specs.Renewing.{IsCopied, IsRefusal, IsRenewing};
ghost use Rattle.blink_map.specs.Sessions.{places_of};

use crate::error::GrowError;
use crate::growing::GrowingMap;
use crate::next::index_of;
use crate::slots::{Current, SlotView};
use crate::waiting::Patience;
use atomic_table::Seat;
use blink_index::Index;
use std::alloc::Global;

// A seat that has taken the copier's slot, the session that lay there, and memory for the others.
pub(crate) struct Begun {
    pub(crate) seat: Seat<Option<Current>, SlotView>,
    pub(crate) lead: Current,
    pub(crate) others: Vec<Current>,
}

// The sessions of all slots, and the index of the entries.
pub(crate) struct Copied {
    pub(crate) lead: Current,
    pub(crate) others: Vec<Current>,
    pub(crate) index: Index,
}

impl GrowingMap {
    // Takes the copier's slot. `Busy`, if no look finds its session there.
    pub(crate) fn begin(
        &self,
        alloc: Global,
        copier: usize,
        patience: Patience,
    ) -> Result<Begun, GrowError>
        requires in_range { copier < places_of self.now }
        ensures renewing { IfOk result
            (λ begun. IsRenewing self.now begun.seat copier begun.lead begun.others.items) }
        ensures alone { IfOk result (λ begun. begun.others.items ≡ []) }
        ensures room { IfOk result (λ begun. places_of self.now ≤ suc (vec_capacity begun.others)) }
        ensures refused { IfErr result IsRefusal }
    {
        let Ok(others) = Vec::with_capacity(alloc, self.table.slot_count()) else {
            return Err(GrowError::OutOfMemory);
        };
        let mut seat = self.enter();
        let Some(lead) = self.take_patiently(&mut seat, copier, patience) else {
            return Err(GrowError::Busy);
        };
        Ok(Begun { seat, lead, others })
    }

    // Takes the other slots too, where the copier's is the first one, and makes an index of the entries. Where that is refused, the sessions
    // are put back.
    pub(crate) fn copy(
        &self,
        alloc: Global,
        seat: &mut Seat<Option<Current>, SlotView>,
        mut lead: Current,
        mut others: Vec<Current>,
        patience: Patience,
    ) -> Result<Copied, GrowError>
        requires renewing { IsRenewing self.now seat.old 0 lead others.items }
        requires alone { others.items ≡ [] }
        requires room { places_of self.now ≤ suc (vec_capacity others) }
        ensures copied { IfOk result (λ copied.
            IsCopied self.now seat.new 0 copied.lead copied.others.items (map_of copied.index)) }
        ensures fan { IfOk result (λ copied. copied.index.fan ≡ self.now.fan) }
        ensures refused { IfErr result IsRefusal }
    {
        if !self.gather(seat, 0, &mut lead, &mut others, patience) {
            self.give_all(seat, 0, lead, others);
            return Err(GrowError::Busy);
        }
        match index_of(alloc, self.fan, &mut lead) {
            Ok(index) => Ok(Copied {
                lead,
                others,
                index,
            }),
            Err(refusal) => {
                self.give_all(seat, 0, lead, others);
                Err(refusal)
            }
        }
    }
}
