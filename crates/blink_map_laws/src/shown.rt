//! What a map has at its opening is found, and what one session inserts another one finds once it was told.
ghost use Rattle.std.specs.Prelude.{◌≡◌, IfOk, None, Some};
ghost use Rattle.blink_batch.specs.{pointer_of};
ghost use Rattle.blink_index.specs.{map_of};

use crate::back::push;
use crate::calls::{change, find, tell};
use blink_batch::Op;
use blink_index::Index;
use blink_map::{GrowError, GrowingMap};
use std::alloc::Global;
use std::sync::Wait;

/// Opens a growing map over an index, looks a key up, and closes the map. The map has what the index has.
pub fn open_and_find<R: Wait>(
    rt: &R,
    alloc: Global,
    index: &Index,
    places: u32,
    key: u64,
) -> Result<Option<u64>, GrowError>
    ensures { IfOk result (λ found. found ≡ pointer_of (map_of index.now) key) }
{
    let (map, mut sessions) = GrowingMap::open(alloc, index, places)?;
    let Some(mut session) = sessions.pop() else {
        return Err(GrowError::Sessions);
    };
    let found = find(rt, &map, &mut session, key);
    push(&mut sessions, session)?;
    match map.close(alloc, sessions) {
        Ok(_) => Ok(found),
        Err(unclosed) => Err(unclosed.refusal),
    }
}

/// Opens a growing map over an index that lacks a key, inserts the key by one session, tells another session, and looks the key up by that
/// one. It finds the pointer that was inserted.
pub fn insert_and_show<R: Wait>(
    rt: &R,
    alloc: Global,
    index: &Index,
    places: u32,
    key: u64,
    pointer: u64,
) -> Result<Option<u64>, GrowError>
    requires absent { pointer_of (map_of index.now) key ≡ None }
    ensures { IfOk result (λ found. found ≡ Some pointer) }
{
    let (map, mut sessions) = GrowingMap::open(alloc, index, places)?;
    let Some(one) = sessions.pop() else {
        return Err(GrowError::Sessions);
    };
    let Some(mut other) = sessions.pop() else {
        return Err(GrowError::Sessions);
    };
    let (mut one, inserted) = change(rt, alloc, &map, one, Op::Insert(key, pointer));
    inserted?;
    tell(rt, &map, &mut one, &mut other);
    let found = find(rt, &map, &mut other, key);
    push(&mut sessions, other)?;
    push(&mut sessions, one)?;
    match map.close(alloc, sessions) {
        Ok(_) => Ok(found),
        Err(unclosed) => Err(unclosed.refusal),
    }
}
