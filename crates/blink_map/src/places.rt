//! The places where the sessions of a growing map rest that nobody uses: a table of its own, with a word and a slot for each place. The
//! word is 0 while the slot is empty, 1 while a session rests there, and 2 while somebody is at the slot.
ghost use Rattle.std.specs.Prelude.{◌≡◌, ◌≤◌};

use crate::growing::{GrowingMap, Session};
use atomic_table::{Play, Table, TableRule};
use std::alloc::Global;
use std::marker::{Brand, PhantomData};
use std::snapshot::Snapshot;

/// The map whose sessions rest.
#[derive(Drop)]
pub(crate) struct Home {
    pub map: Snapshot<GrowingMap>,
}

/// What a seat of the places knows: nothing.
pub struct Visitor {
    pub number: u64,
}

/// The rule of the places: where the word says so, one of the map's sessions rests, or there is space for one.
pub(crate) struct RuleOfPlaces;

impl TableRule<Option<Session>, Visitor, Home> for RuleOfPlaces {
    ghost use Rattle.blink_map.specs.Resting.{ArePlaces, visitor};

    ghost holds = { λ home. ArePlaces home.map.value };

    ghost first = { λ home. visitor };
}

/// The sessions of a growing map that nobody uses. Any thread takes one of them, and gives its own back, at any time. A session that
/// rests here is in no call, so it holds back neither a renewal nor a close.
#[derive(Drop)]
pub struct Places {
    pub(crate) table: Table<Option<Session>, Visitor, Home, RuleOfPlaces, Global>,
    ghost words: { table.shared.table_id.words ≡ table.shared.table_id.slots },
    ghost some_place: { 1 ≤ table.shared.table_id.slots },
    ghost all_places: { table.shared.table_id.slots
        ≡ table.shared.key.map.value.table.shared.table_id.slots },
}

/// The load that makes a seat of the places.
pub(crate) struct Visit;

impl Play<Option<Session>, Visitor> for Visit {
    ghost use Rattle.blink_map.specs.Resting.{visits};

    ghost then = { visits };
}

/// The map whose sessions rest at the places: its table, and the entries that it was opened with. Each call picks them.
pub(crate) trait Belongs {
    ghost use Rattle.atomic_table.specs.Seated.{TableId};
    ghost use Rattle.std.specs.Prelude.{List};
    ghost use Rattle.blink_batch.specs.declared.Entry.{Entry};

    ghost table: { TableId };

    ghost first: { List Entry };
}

impl Belongs for Brand {
    ghost use Rattle.std.specs.Prelude.{[]};
    ghost use Rattle.blink_map.specs.Resting.{no_table};

    ghost table = { no_table };

    ghost first = { [] };
}

/// The compare-and-exchange of 1 for 2 in a place's word. If 1 was found, the seat has the session that rested there.
pub(crate) struct TakeSession<B> {
    of: PhantomData<B>,
}

impl<B: Belongs> Play<Option<Session>, Visitor> for TakeSession<B> {
    ghost use Rattle.blink_map.specs.Resting.{takes_session};

    ghost then = { takes_session B.table B.first };
}

/// The compare-and-exchange of 0 for 2 in a place's word. If 0 was found, the seat has the place's slot.
pub(crate) struct TakeSpace;

impl Play<Option<Session>, Visitor> for TakeSpace {
    ghost use Rattle.blink_map.specs.Resting.{takes_space};

    ghost then = { takes_space };
}

/// The store of a place's word by the seat that has the slot, which it gives back.
pub(crate) struct GiveSlot;

impl Play<Option<Session>, Visitor> for GiveSlot {
    ghost use Rattle.blink_map.specs.Resting.{visits};

    ghost then = { visits };
}
