//! What happens to a table from its opening to its close, as a list of acts. Most tests are such stories, which the same few
//! functions go through: so a test costs its proof next to nothing.
use crate::finding_all::FindAll;
use crate::handing::hand_rounds;
use crate::indexes::{Look, look_at};
use crate::retiring::deal_rounds;
use crate::row::Row;
use crate::same::{given, same};
use crate::scanning::Scan;
use crate::shared::{Meeting, Shared};
use crate::sights::{OfKeeper, OfPass, OfTable, see_keeper, see_pass, see_table};
use crate::snapshots::Taken;
use crate::steps::Step;
use crate::walks::Walks;
use crate::works::Work;
use blink_batch::{Answer, Op};
use blink_live::{LiveError, PassError};
use std::alloc::Global;
use std::process::Abort;
use std::sync::Wait;
use std::thread::Threads;

pub(crate) struct Story {
    pub name: &'static str,
    // The table is opened over the index of the keys after the first number up to the second, each with ten times the key.
    pub over: (usize, usize),
    // The insertions and deletions for which it has room.
    pub room: (u32, u32),
    pub acts: &'static [Act],
    pub end: End,
}

// Passes have places in the order of their deals; a pass that goes leaves its place to the next.
#[derive(Clone, Copy)]
pub(crate) enum Act {
    // A pass with these keys and so many insertions and deletions is dealt.
    Deal(&'static [u64], u32, u32),
    // A pass with the keys of each of several threads is dealt.
    DealWalks(Walks),
    // Such a deal is refused with this.
    RefuseDeal(&'static [u64], u32, u32, LiveError),
    // The pass at this place takes these steps.
    Take(usize, &'static [Step]),
    // The pass at this place and the last one meet.
    Meet(usize, Meeting<'static>),
    // The last pass makes this call in steps; once it has begun, the first pass takes its own.
    InSteps(Op, &'static [Step], Result<Answer, PassError>),
    // Each pass does its part in a thread of its own.
    Run(Work),
    // Each pass begins an insertion here, and goes on in a thread of its own.
    InsertAllInSteps,
    // So many rounds of eight passes whose keys go round: they come back and are dealt again, or are handed round.
    DealRounds(u64),
    HandRounds(u64),
    // The first pass scans, takes snapshots, or finds several keys.
    Scans(&'static [Scan]),
    ScansBack(&'static [Scan]),
    Snapshots(&'static [Taken]),
    // It takes no snapshot without a try.
    NoSnapshot,
    FindsAll(FindAll),
    // The last pass comes back.
    RetireLast,
    // The first pass is dropped.
    LoseFirst,
    // The last pass begins this call, and is dropped with it.
    LoseLast(Op),
    // The last pass begins this call, goes on with it once, and is dropped with it, whether it has ended or not.
    LoseLastUnderWay(Op),
    // The table, its keeper or the pass at this place shows this of itself.
    Table(OfTable),
    Keeper(OfKeeper),
    Pass(usize, OfPass),
}

#[derive(Clone, Copy)]
pub(crate) enum End {
    StaysOpen,
    Closes(&'static [Look]),
    // The close is refused with this.
    Refused(LiveError),
}

// Each story goes so.
pub(crate) fn play_all<R: Threads + Wait + Abort + Sync>(
    rt: &R,
    alloc: Global,
    stories: &[&Story],
) {
    for &story in stories {
        let name = story.name;
        play(&Row { rt, name }, alloc, story);
    }
}

fn play<R: Threads + Wait + Abort + Sync>(rt: &R, alloc: Global, story: &Story) {
    let mut table = Shared::open(rt, alloc, story.over, story.room);
    for act in story.acts {
        table.play(rt, *act);
    }
    table.end(rt, story.end);
}

impl Shared {
    fn play<R: Threads + Wait + Abort + Sync>(&mut self, rt: &R, act: Act) {
        match act {
            Act::Deal(keys, inserts, deletes) => self.deal(rt, keys, inserts, deletes, Ok(())),
            Act::RefuseDeal(keys, inserts, deletes, refusal) => {
                self.deal(rt, keys, inserts, deletes, Err(refusal));
            }
            Act::Take(place, steps) => self.take(rt, place, steps),
            Act::Meet(place, meeting) => self.meet(rt, place, meeting),
            Act::InSteps(op, steps, expected) => self.call_in_steps(rt, op, steps, expected),
            Act::Run(work) => self.run(rt, work),
            Act::InsertAllInSteps => self.insert_all(rt),
            Act::DealWalks(walks) => self.deal_walks(rt, walks),
            Act::DealRounds(rounds) => deal_rounds(rt, self, rounds),
            Act::HandRounds(rounds) => hand_rounds(rt, self, rounds),
            Act::RetireLast => self.retire_last(rt),
            Act::LoseFirst => self.lose_first(rt),
            Act::LoseLast(op) => self.lose_last(rt, op),
            Act::LoseLastUnderWay(op) => self.lose_last_under_way(rt, op),
            _ => self.look(rt, act),
        }
    }

    // The table is seen so, and nothing else is done.
    fn look(&mut self, rt: &impl Abort, act: Act) {
        match act {
            Act::Table(sight) => see_table(rt, &self.live, sight),
            Act::Keeper(sight) => see_keeper(rt, &self.keeper, sight),
            Act::Pass(place, sight) => {
                see_pass(rt, self.passes.get(place).expect(rt, "no pass"), sight);
            }
            Act::Scans(cases) => self.scan_each(rt, cases),
            Act::ScansBack(cases) => self.scan_each_back(rt, cases),
            Act::Snapshots(cases) => self.snapshot_each(rt, cases),
            Act::NoSnapshot => self.has_no_snapshot(rt),
            Act::FindsAll(case) => self.find_all(rt, &case),
            _ => panic!(rt; "an act that does something"),
        }
    }

    fn end(self, rt: &impl Abort, end: End) {
        let alloc = self.alloc;
        match end {
            End::StaysOpen => {}
            End::Closes(looks) => look_at(rt, alloc, &given(rt, self.close()), looks),
            End::Refused(refusal) => same(rt, &self.close().err(), &Some(refusal)),
        }
    }
}
