//! A map from its opening to its close: nobody else has changed it.
ghost use Rattle.std.specs.Prelude.{◌≡◌, All, IfOk, length};
ghost use Rattle.blink_index.specs.{map_of};
ghost use Rattle.blink_map.specs.{IsSessionOf, places_of};
ghost use Rattle.blink_map_laws.specs.Whole.{AreOnlyTheirs, HaveSameEntries};

use blink_index::Index;
use blink_map::{GrowError, GrowingMap, Session, Unclosed};
use std::alloc::Global;

/// Opens a growing map over an index and closes it. The index that it returns has the same entries: nobody has changed the map.
pub fn open_and_close(alloc: Global, index: &Index, places: u32) -> Result<Index, GrowError>
    ensures { IfOk result (λ closed. HaveSameEntries (map_of index.now) (map_of closed)) }
{
    let (map, sessions) = GrowingMap::open(alloc, index, places)?;
    match map.close(alloc, sessions) {
        Ok(index) => Ok(index),
        Err(unclosed) => Err(unclosed.refusal),
    }
}

/// Closes a growing map to which all its sessions have come back. Nobody else has changed it.
pub fn close_with_all(
    alloc: Global,
    map: GrowingMap,
    sessions: Vec<Session>,
) -> Result<Index, Unclosed>
    requires its_own { All (IsSessionOf map) sessions.items }
    requires all { length sessions.items ≡ places_of map }
    ensures { IfOk result (λ index. AreOnlyTheirs map sessions.items (map_of index)) }
{
    map.close(alloc, sessions)
}
