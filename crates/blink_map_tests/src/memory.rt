//! Memory that is refused when a map opens, grows, is renewed and closes. `rt try --test --fail-alloc N` refuses the Nth request; without
//! it none is.
use crate::same::same;
use crate::shared::Single;
use blink_batch::{Answer, Op};
use blink_map::GrowError;
use std::alloc::Global;
use std::process::Abort;
use std::sync::Wait;

const KEYS: u64 = 6_000;

// A refused insertion changes nothing, and is made again: one request alone is refused. No key is lost.
#[test]
fn refused_memory_loses_no_key(rt: HostRuntime) {
    let alloc = rt.alloc();
    let Ok(mut map) = Single::new(&rt, alloc) else {
        return;
    };
    for key in 0..KEYS {
        let (then, outcome) = map.apply(&rt, alloc, Op::Insert(key, key));
        map = then;
        if let Err(refusal) = outcome {
            same(&rt, &refusal, &GrowError::OutOfMemory);
            map = map.call(&rt, alloc, Op::Find(key), Answer::Absent);
            map = map.call(&rt, alloc, Op::Insert(key, key), Answer::Inserted);
        }
    }
    let index = map.close(&rt, alloc);
    for key in 0..KEYS {
        same(&rt, &index.find(key), &Some(key));
    }
    same(&rt, &index.find(KEYS), &None);
}

// More keys than a page has, so that the index has several, and few enough for the room of the first map.
const FEW_KEYS: u64 = 100;

fn find_all<R: Wait + Abort>(rt: &R, alloc: Global, map: Single) -> Single {
    let mut map = map;
    for key in 0..FEW_KEYS {
        map = map.call(rt, alloc, Op::Find(key), Answer::Found(key ^ 5));
    }
    map.call(rt, alloc, Op::Find(FEW_KEYS), Answer::Absent)
}

// A refused renewal leaves the map as it was, and is made again.
#[test]
fn a_renewal_that_is_refused_memory_leaves_the_map_as_it_was(rt: HostRuntime) {
    let alloc = rt.alloc();
    let Ok(mut map) = Single::among(&rt, alloc, 3) else {
        return;
    };
    for key in 0..FEW_KEYS {
        map = map.call(&rt, alloc, Op::Insert(key, key ^ 5), Answer::Inserted);
    }
    if let Err(refusal) = map.renew(alloc) {
        same(&rt, &refusal, &GrowError::OutOfMemory);
        map = find_all(&rt, alloc, map);
        same(&rt, &map.renew(alloc), &Ok(()));
    }
    let map = find_all(&rt, alloc, map);
    let map = map.call(&rt, alloc, Op::Delete(7), Answer::Removed(7 ^ 5));
    let index = map.close(&rt, alloc);
    same(&rt, &index.find(6), &Some(6 ^ 5));
    same(&rt, &index.find(7), &None);
    same(&rt, &index.find(FEW_KEYS), &None);
}
