//! The next map: the entries of the current one in an index, and a map over it with more room.
ghost use Rattle.std.specs.Prelude.{◌≡◌, ◌<◌, ◌≤◌, suc, IfErr, IfOk, length};
ghost use Rattle.std.specs.Arc.{arc_value};
ghost use Rattle.blink_index.specs.{map_of};
ghost use Rattle.blink_page.specs.{IsFan};
ghost use Rattle.blink_generation.specs.{IsSessionOf};
ghost use Rattle.blink_map.specs.Laid.{AreFirst, AreOthersIn, IsFirstIn};
ghost use Rattle.blink_map.specs.Renewing.{AreEntriesSeen, AreNext, IsRefusal, MaySeeMore};

use crate::error::GrowError;
use crate::room::room_over;
use crate::slots::Current;
use crate::waiting::COPY_TRIES;
use blink_generation::{Map, MapError, Session};
use blink_index::{Index, SortedError};
use std::alloc::{AllocError, Global};
use std::sync::Arc;

// An index of all entries of the session's map, in as few pages as they need, as all that the session has seen by then leaves them. `Busy`,
// if somebody changed the map at each try.
pub(crate) fn index_of(alloc: Global, fan: u8, lead: &mut Current) -> Result<Index, GrowError>
    requires its_own { IsSessionOf (arc_value lead.old.map) lead.old.session }
    requires fan { IsFan fan }
    ensures more { MaySeeMore lead.old lead.new }
    ensures entries { IfOk result (λ index. AreEntriesSeen lead.new (map_of index)) }
    ensures fan { IfOk result (λ index. index.fan ≡ fan) }
    ensures refused { IfErr result IsRefusal }
{
    let Current {
        map,
        session,
        number: _,
        changes: _,
    } = lead;
    let Ok(found) = map.snapshot(alloc, session, 0, u64::MAX, COPY_TRIES) else {
        return Err(GrowError::OutOfMemory);
    };
    let Some(entries) = found else {
        return Err(GrowError::Busy);
    };
    match Index::from_sorted(alloc, fan, &entries) {
        Ok(index) => Ok(index),
        Err(SortedError::TooLarge) => Err(GrowError::TooLarge),
        Err(_) => Err(GrowError::OutOfMemory),
    }
}

// Opens a map over the index with so many sessions, and room for so many of them. Returns the sessions with owners of the map: the one of
// the copier's place, and the others.
pub(crate) fn open_next(
    alloc: Global,
    index: &Index,
    slots: u32,
    parts: u32,
    copier: usize,
    number: u64,
) -> Result<(Current, Vec<Current>), GrowError>
    requires slots { slots ≤ 256 }
    requires some_part { 1 ≤ parts }
    requires parts { parts ≤ slots }
    requires in_range { copier < slots }
    ensures next { IfOk result
        (λ next. AreNext (map_of index.now) slots copier next.0 next.1.items) }
    ensures refused { IfErr result IsRefusal }
{
    let Some(room) = room_over(index.page_count(), slots, parts) else {
        return Err(GrowError::TooLarge);
    };
    let (map, sessions) = match Map::open_in_parts(alloc, index, room, parts) {
        Ok(opened) => opened,
        Err(MapError::TooLarge) => return Err(GrowError::TooLarge),
        Err(_) => return Err(GrowError::OutOfMemory),
    };
    let Ok(map) = Arc::new(alloc, map) else {
        return Err(GrowError::OutOfMemory);
    };
    match hold(alloc, &map, sessions, copier, number) {
        Ok(held) => Ok(held),
        Err(_) => Err(GrowError::OutOfMemory),
    }
}

// The sessions of a map, each with an owner of it: the one of the copier's place, and the others.
fn hold(
    alloc: Global,
    map: &Arc<Map>,
    mut sessions: Vec<Session>,
    copier: usize,
    number: u64,
) -> Result<(Current, Vec<Current>), AllocError>
    requires first { AreFirst (arc_value map.now) sessions.items }
    requires in_range { copier < length sessions.items }
    ensures first { IfOk result (λ held. IsFirstIn (arc_value map.now) copier held.0) }
    ensures others { IfOk result (λ held. AreOthersIn (arc_value map.now) copier held.1.items) }
    ensures width { IfOk result (λ held. suc (length held.1.items) ≡ length sessions.items) }
{
    let first = sessions.remove(copier);
    let lead = hold_one(map, first, number)?;
    let mut others = Vec::with_capacity(alloc, sessions.len())?;
    // They are taken from the end, so that none of the others moves.
    sessions.reverse();
    while let Some(session) = sessions.pop() {
        let held = hold_one(map, session, number)?;
        others.push_reserved(held);
    }
    Ok((lead, others))
}

// A session of the map, with an owner of the map.
fn hold_one(map: &Arc<Map>, session: Session, number: u64) -> Result<Current, AllocError>
    ensures map { IfOk result (λ held. arc_value held.map ≡ arc_value map.now) }
    ensures session { IfOk result (λ held. held.session ≡ session) }
    ensures none_counted { IfOk result (λ held. held.changes ≡ 0) }
{
    let owner = Arc::try_clone(map)?;
    Ok(Current {
        map: owner,
        session,
        number,
        changes: 0,
    })
}
