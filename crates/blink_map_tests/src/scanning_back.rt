//! Backward scans: in the map that was filled, and in the one that it was renewed by.
use crate::same::{given, same, same_for};
use crate::shared::Single;
use blink_batch::{Answer, Entry, Op};
use blink_map::Scanned;
use std::alloc::Global;
use std::process::Abort;
use std::sync::Wait;

// A scan of a range of keys into so many places, the entries that it reports backwards, and the key from which another goes on.
struct Back {
    range: (u64, u64),
    places: usize,
    entries: &'static [(u64, u64)],
    next: Option<u64>,
}

// What stands in a place before a scan, and how many places there are.
const BEFORE: Entry = Entry {
    key: 77,
    pointer: 7,
};

const PLACES: usize = 16;

impl Single {
    // Gives the map the keys 1 to 3, 91 to 100 and the greatest, each of the first ones with ten times the key. The leaves between have
    // no entry.
    fn fill<R: Wait + Abort>(self, rt: &R, alloc: Global) -> Single {
        let mut map = self;
        for key in 1..101 {
            map = map.call(rt, alloc, Op::Insert(key, key * 10), Answer::Inserted);
        }
        for key in 4..91 {
            map = map.call(rt, alloc, Op::Delete(key), Answer::Removed(key * 10));
        }
        map.call(rt, alloc, Op::Insert(u64::MAX, 1), Answer::Inserted)
    }

    // The scan reports the case's entries, and behind them stands what was there before.
    fn scan_back(&mut self, rt: &impl Abort, case: &Back) {
        assert!(rt; case.places <= PLACES, "too many places");
        let Single { map, session } = self;
        let mut into = [BEFORE; PLACES];
        let scanned = map.try_scan_back(session, case.range, 1, &mut into[..case.places]);
        let expected = Scanned {
            filled: case.entries.len(),
            next: case.next,
        };
        same_for(rt, &scanned, &Ok(expected), &case.range);
        for (place, entry) in into.iter().enumerate() {
            let (key, pointer) = *case.entries.get(place).unwrap_or(&(77, 7));
            same_for(rt, entry, &Entry { key, pointer }, &case.range);
        }
    }

    // Scans by these cases.
    fn scan_all_back(&mut self, rt: &impl Abort) {
        for case in BACK {
            self.scan_back(rt, case);
        }
    }
}

const BACK: &[Back] = &[
    Back {
        range: (0, u64::MAX),
        places: 16,
        entries: &[
            (u64::MAX, 1),
            (100, 1000),
            (99, 990),
            (98, 980),
            (97, 970),
            (96, 960),
            (95, 950),
            (94, 940),
            (93, 930),
            (92, 920),
            (91, 910),
            (3, 30),
            (2, 20),
            (1, 10),
        ],
        next: None,
    },
    Back {
        range: (2, 92),
        places: 3,
        entries: &[(92, 920), (91, 910), (3, 30)],
        next: Some(2),
    },
    Back {
        range: (4, 90),
        places: 16,
        entries: &[],
        next: None,
    },
    Back {
        range: (9, 8),
        places: 16,
        entries: &[],
        next: None,
    },
    Back {
        range: (0, 99),
        places: 0,
        entries: &[],
        next: Some(99),
    },
];

#[test]
fn backward_scans_report_their_ranges(rt: HostRuntime) {
    let alloc = rt.alloc();
    let map = given(&rt, Single::new(&rt, alloc));
    let mut map = map.fill(&rt, alloc);
    map.scan_all_back(&rt);
    same(&rt, &map.renew(alloc), &Ok(()));
    map.scan_all_back(&rt);
}
