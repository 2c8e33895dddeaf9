//! Two insertions of one absent key, each in a thread of its own.
ghost use Rattle.std.specs.Prelude.{◌≡◌, None, IfOk};
ghost use Rattle.blink_batch.specs.{pointer_of};
ghost use Rattle.blink_batch.specs.declared.Op.TheVariants.{Insert};
ghost use Rattle.blink_index.specs.{map_of};
ghost use Rattle.blink_map.specs.{IsAnswered, IsSessionOf};
ghost use Rattle.blink_map_laws.specs.Racing.{OneIsInserted};

use crate::back::push;
use crate::calls::change;
use blink_batch::{Answer, Op};
use blink_index::Index;
use blink_map::{GrowError, GrowingMap, Session};
use std::alloc::Global;
use std::sync::Wait;
use std::thread::{Threads, join};

/// Opens a growing map over an index, lets two of its sessions insert one key that the index lacks, each in a thread of its own, and
/// closes the map. Exactly one of them is answered `Inserted`, and the other one that the key has the first one's pointer.
pub fn two_insert<R: Threads + Wait + Sync>(
    rt: &R,
    alloc: Global,
    index: &Index,
    places: u32,
    key: u64,
    pointers: (u64, u64),
) -> Result<(Answer, Answer), GrowError>
    requires absent { pointer_of (map_of index.now) key ≡ None }
    ensures { IfOk result (λ answers. OneIsInserted pointers.0 pointers.1 answers.0 answers.1) }
{
    let (map, mut sessions) = GrowingMap::open(alloc, index, places)?;
    let Some(one) = sessions.pop() else {
        return Err(GrowError::Sessions);
    };
    let Some(other) = sessions.pop() else {
        return Err(GrowError::Sessions);
    };
    let ((one, by_one), (other, by_other)) = both_insert(
        rt, alloc, &map, one, other, key, pointers,
    );
    let first = by_one?;
    let second = by_other?;
    push(&mut sessions, other)?;
    push(&mut sessions, one)?;
    match map.close(alloc, sessions) {
        Ok(_) => Ok((first, second)),
        Err(unclosed) => Err(unclosed.refusal),
    }
}

// An insertion by a session, which comes back with what it was answered.
type Tried = (Session, Result<Answer, GrowError>);

fn both_insert<R: Threads + Wait + Sync>(
    rt: &R,
    alloc: Global,
    map: &GrowingMap,
    one: Session,
    other: Session,
    key: u64,
    pointers: (u64, u64),
) -> (Tried, Tried)
    requires ones { IsSessionOf map.now one }
    requires others { IsSessionOf map.now other }
    ensures ones { IfOk result.0.1 (IsAnswered map.now (Insert key pointers.0) one result.0.0) }
    ensures others { IfOk result.1.1 (IsAnswered map.now (Insert key pointers.1) other result.1.0) }
{
    join(
        rt,
        || change(rt, alloc, map, one, Op::Insert(key, pointers.0)),
        || change(rt, alloc, map, other, Op::Insert(key, pointers.1)),
    )
}
