//! Rows are written again: a map with few rows takes any number of changes.
use crate::shared::Two;
use crate::shared::Who::One;
use crate::sights::Sight::PoolRows;
use blink_batch::{Answer, Op};
use std::process::Abort;

// So often one key is inserted and deleted.
const TURNS: u64 = 100_000;

impl Two {
    fn insert_and_delete(self, rt: &impl Abort, key: u64, pointer: u64) -> Two {
        let two = self.call(rt, One, Op::Insert(key, pointer), Ok(Answer::Inserted));
        two.call(rt, One, Op::Delete(key), Ok(Answer::Removed(pointer)))
    }
}

// 300 rows would be used up after 300 changes, were each written once. The session has drawn the 75 rows that it may have, and no
// more, since the rows that it writes over come back in time.
#[test]
fn many_changes_take_few_rows(rt: HostRuntime) {
    let mut two = Two::open(&rt, rt.alloc(), (100, 300));
    for pointer in 0..TURNS {
        two = two.insert_and_delete(&rt, 7, pointer);
    }
    two.see(&rt, PoolRows(225));
}
