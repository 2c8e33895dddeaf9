//! Memory that is refused when a map opens. `rt try --test --fail-alloc N` refuses the Nth request; without it none is.
use blink_generation::{Map, MapError, Room};
use blink_index::Index;

const ROOM: Room = Room {
    pages: 100,
    rows: 1000,
    sessions: 3,
};

// After a refusal the same call succeeds: one request alone is refused.
#[test]
fn refused_memory_is_told_when_a_map_opens(rt: HostRuntime) {
    let alloc = rt.alloc();
    let Ok(index) = Index::new(alloc, 4) else {
        return;
    };
    if let Err(refusal) = Map::open(alloc, &index, ROOM) {
        assert_eq!(&rt; refusal, MapError::OutOfMemory);
        assert!(&rt; Map::open(alloc, &index, ROOM).is_ok());
    }
}
