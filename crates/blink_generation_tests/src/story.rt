//! What happens to a map of two sessions, as a list of acts. Most tests are tables of such stories, which the same few functions go
//! through: so a story costs its proof next to nothing.
use crate::row::Row;
use crate::scanning::Scan;
use crate::shared::{Two, Who};
use crate::sights::Sight;
use crate::snapshots::Taken;
use blink_batch::{Answer, Op};
use blink_generation::Full;
use std::alloc::Global;
use std::process::Abort;

pub(crate) struct Story {
    pub name: &'static str,
    // The page numbers and rows for which the map has room.
    pub room: (u32, u32),
    pub scenes: &'static [&'static [Act]],
}

#[derive(Clone, Copy)]
pub(crate) enum Act {
    // The session's operation gives this.
    Call(Who, Op, Result<Answer, Full>),
    // It is made where the session lies, or given up, and gives this.
    Try(Who, Op, Result<Option<Answer>, Full>),
    // The first session inserts the keys from the first number up to the second, each with so many times the key.
    InsertEach(u64, u64, u64),
    // It deletes them again.
    DeleteEach(u64, u64, u64),
    // It replaces the pointer of this key, 0 at first, so many times by the next number.
    ReplaceOften(u64, u64),
    // It looks these keys up by one call.
    FindAll(&'static [u64], &'static [Option<u64>]),
    // The first session scans these ranges.
    Scan(&'static [Scan]),
    // It scans these backwards.
    ScanBack(&'static [Scan]),
    // The first session takes snapshots of these ranges.
    Snapshot(&'static [Taken]),
    // The first session tells the second.
    Tell,
    // The sessions change places.
    Turn,
    // This is seen of the map and its sessions.
    See(Sight),
}

pub(crate) fn play_all(rt: &impl Abort, alloc: Global, stories: &[&Story]) {
    for &story in stories {
        let name = story.name;
        play(&Row { rt, name }, alloc, story);
    }
}

fn play(rt: &impl Abort, alloc: Global, story: &Story) {
    let mut two = Two::open(rt, alloc, story.room);
    for &acts in story.scenes {
        two = two.play_scene(rt, alloc, acts);
    }
}

impl Two {
    fn play_scene(self, rt: &impl Abort, alloc: Global, acts: &[Act]) -> Two {
        let mut two = self;
        for &act in acts {
            two = two.play(rt, alloc, act);
        }
        two
    }

    fn play(self, rt: &impl Abort, alloc: Global, act: Act) -> Two {
        let mut two = self;
        match act {
            Act::Call(who, op, expected) => return two.call(rt, who, op, expected),
            Act::Try(who, op, expected) => two.try_call(rt, who, op, expected),
            Act::InsertEach(first, end, times) => return two.insert_each(rt, (first, end), times),
            Act::DeleteEach(first, end, times) => return two.delete_each(rt, (first, end), times),
            Act::ReplaceOften(key, times) => return two.replace_often(rt, key, times),
            Act::FindAll(keys, answers) => two.find_all(rt, keys, answers),
            Act::Scan(cases) => two.scan_all(rt, cases),
            Act::ScanBack(cases) => two.scan_all_back(rt, cases),
            Act::Snapshot(cases) => two.snapshot_all(rt, alloc, cases),
            Act::Tell => two.tell(),
            Act::See(sight) => two.see(rt, sight),
            Act::Turn => return two.turn(),
        }
        two
    }
}
