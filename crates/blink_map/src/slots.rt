//! The slots: a table with a word and a slot for each session. A session's session of the current map lies in its slot while no call
//! has it. The word is 0 then, and 1 while a call has it, or a renewal. Each call writes to its word twice, so each word has a line of the
//! processor's cache for itself: otherwise calls of different threads would wait for one line.
use atomic_table::{Join, Play, Split, TableRule};
use blink_batch::Entry;
use blink_generation::{Map, Session};
use blink_index::Index;
use blink_live::Change;
use std::collections::LinkedList;
use std::snapshot::Snapshot;
use std::sync::Arc;

/// The number of words in the line of a slot, as many as in a line of the processor's cache. The first is the slot's word.
pub(crate) const SLOT_WORDS: usize = 8;

/// A session of a map, with an owner of the map, and the map's number: how often there was a renewal before. The changes that the session
/// has made in the map are counted, up to the greatest number of 64 bits, which says that they are too many.
///
/// The session comes last. It ends with what few calls touch, so that what they write in one slot isn't in a line with the next slot.
#[derive(Drop)]
pub struct Current {
    pub map: Arc<Map>,
    pub number: u64,
    pub changes: u64,
    pub session: Session,
}

/// The index that the first map was opened over, and the number of slots.
#[derive(Drop)]
pub struct Origin {
    pub index: Snapshot<Index>,
    pub slots: u64,
}

/// The current map, and the changes of all maps before it. No value of it is made.
pub struct Generation {
    pub map: Map,
    pub past: LinkedList<Change>,
}

/// The changes that a session has seen, from the first map's on, and those that were made by it. No value of it is made.
pub struct Known {
    pub seen: LinkedList<Change>,
    pub made: LinkedList<Change>,
}

/// What a seat of the slots knows. No value of it is made.
pub struct SlotView {
    /// The entries that the first map was opened with, and the number of slots.
    pub first: LinkedList<Entry>,
    pub slots: u64,
    /// The sessions that the seat has, by their slots: a session itself, or those that a call has put together.
    pub accounts: LinkedList<(u64, Known)>,
    /// The current map, while the seat has taken a slot.
    pub now: Option<Generation>,
    /// The slots that it has taken, in this order, and what the sessions in them knew.
    pub taken: LinkedList<(u64, Known)>,
}

/// The rule of the slots.
pub struct RuleOfSlots;

impl TableRule<Option<Current>, SlotView, Origin> for RuleOfSlots {
    ghost use Rattle.blink_map.specs.Rule.{IsGrowing, opener};
    ghost use Rattle.blink_index.specs.{map_of};

    ghost holds = { λ origin. IsGrowing (map_of origin.index.value) };

    ghost first = { λ origin. opener (map_of origin.index.value) origin.slots };
}

/// The load that makes a seat with no session.
pub(crate) struct Enter;

impl Play<Option<Current>, SlotView> for Enter {
    ghost use Rattle.blink_map.specs.Steps.{enters};

    ghost then = { enters };
}

/// The compare-and-exchange of 0 for 1 in a slot's word. If 0 was found, the seat has the session that lay in the slot.
pub(crate) struct Take;

impl Play<Option<Current>, SlotView> for Take {
    ghost use Rattle.blink_map.specs.Steps.{takes_slot};

    ghost then = { takes_slot };
}

/// The store of 0 in the word of the slot that the seat took last: a session of the current map lies in it.
pub(crate) struct Give;

impl Play<Option<Current>, SlotView> for Give {
    ghost use Rattle.blink_map.specs.Steps.{gives_back};

    ghost then = { gives_back };
}

/// The compare-and-exchange of 1 for 1 in the word of the first slot, by which another map becomes the current one, when the seat has
/// taken all slots. It is told a session of that map.
pub(crate) struct Switch;

impl Play<Option<Current>, SlotView> for Switch {
    ghost use Rattle.blink_map.specs.Steps.{switches};

    ghost then = { switches };
}

/// The load that tells what the sessions that the seat has know of the slots that it has taken.
pub(crate) struct Compare;

impl Play<Option<Current>, SlotView> for Compare {
    ghost use Rattle.blink_map.specs.Steps.{compares};

    ghost then = { compares };
}

/// A seat of its own for the first session that the seat has.
pub(crate) struct PartWithFirst;

impl Split<SlotView> for PartWithFirst {
    ghost use Rattle.blink_map.specs.Steps.{first_alone, without_first};

    ghost left = { without_first };

    ghost right = { first_alone };
}

/// One seat for the sessions of two.
pub(crate) struct PutTogether;

impl Join<SlotView> for PutTogether {
    ghost use Rattle.blink_map.specs.Steps.{nobody, together};

    ghost both = { together };

    ghost spent = { nobody };
}
