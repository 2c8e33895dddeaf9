//! The book of a run under one lock, and the locked run at which its workers take turns: what it leaves, and who sees a stop.
ghost use Rattle.std.specs.Prelude.{◌≡◌};
ghost use Rattle.blink_batch.specs.{IsLawfulCut};

use crate::batches::gates::{CountingGate, LOOKS};
use crate::batches::{are_found, are_inserted};
use crate::calls::CutBatch;
use crate::fixtures::{given, same, same_for};
use crate::row::Row;
use blink_batch::{Answer, Op};
use blink_index::Index;
use blink_locked::{Book, LockedRun, Origin, Turn};
use blink_machine::Kind;
use blink_run::{Driver, Gate, Open, RunError};
use std::alloc::Global;
use std::marker::Brand;
use std::process::Abort;
use std::sync::Wait;
use std::sync::atomic::Ordering;
use std::thread::{self, Threads};

// How often a thread yields, so that another comes to wait meanwhile.
const YIELDS: u32 = 1_000;

// A worker's turn for the operation at a place, and what it returns.
type TurnTaken = (u8, u32, Turn);

// What is done with a book of two workers.
#[derive(Clone, Copy)]
enum Act<'a> {
    // These turns are taken.
    Takes(&'a [TurnTaken]),
    // The run is stopped.
    Stops,
    // Both workers run their lanes, one after the other.
    RunsLanes,
    // Worker 0 runs its lane, and the run is stopped on the way.
    RunsToStop(Stop),
    // Worker 0 waits in a thread of its own, and the run is stopped meanwhile.
    WaitsForStop,
}

// The run is stopped before the operation at one place, or behind that at another. So many operations are begun, and so many end.
#[derive(Clone, Copy)]
struct Stop {
    before: u32,
    after: u32,
    begun: u64,
    ended: u64,
}

// How the book is settled.
#[derive(Clone, Copy)]
enum End {
    // With the insertions of the keys 1 and 2.
    BothInserted,
    // Not at all, for this reason: the run is stopped, or operations are left.
    Refused(RunError),
    // Nobody asks.
    Dropped,
}

// What is done with the book of a run of these operations on a new index, and how it ends.
#[derive(Clone, Copy)]
struct Play<'a> {
    name: &'a str,
    ops: &'a [Op],
    acts: &'a [Act<'a>],
    end: End,
}

fn expect_play<R: Threads + Wait + Abort + Sync>(rt: &R, alloc: Global, play: &Play<'_>) {
    let index = given(rt, Index::new(alloc, 4));
    let work = CutBatch::new(rt, alloc, play.ops, 2);
    run_play::<Brand, R>(rt, alloc, &index, &work, play)
}

// A book's type names its run, so the play stands for all runs.
fn run_play<B: Origin + Send + Sync, R: Threads + Wait + Abort + Sync>(
    rt: &R,
    alloc: Global,
    index: &Index,
    work: &CutBatch,
    play: &Play<'_>,
)
    requires lawful { IsLawfulCut B.ops B.assignment.workers B.assignment.lanes }
    requires picked { (B.start ≡ index.now) × (B.ops ≡ work.now.batch)
        × (B.assignment ≡ work.now.cut) }
{
    let book = Book::<B>::new(alloc, index.rest(), &work.batch, &work.cut);
    let mut book = given(rt, book);
    for act in play.acts {
        book = after_act(rt, book, work.cut.lanes(), *act);
    }
    expect_end(rt, alloc, book, play.end)
}

fn after_act<B: Origin + Send + Sync, R: Threads + Wait + Abort + Sync>(
    rt: &R,
    book: Book<B>,
    lanes: &[u8],
    act: Act<'_>,
) -> Book<B> {
    match act {
        Act::Takes(turns) => after_turns(rt, book, turns),
        Act::Stops => after_stop(book),
        Act::RunsLanes => after_lanes(rt, book, lanes),
        Act::RunsToStop(stop) => after_run_to_stop(rt, book, lanes, stop),
        Act::WaitsForStop => after_wait_for_stop(rt, book, lanes),
    }
}

fn after_turns<B: Origin>(rt: &impl Abort, mut book: Book<B>, turns: &[TurnTaken]) -> Book<B> {
    for &(worker, op, expected) in turns {
        let turn = turn_of(&mut book, worker, op);
        same_for(rt, &turn, &expected, &(worker, op));
    }
    book
}

// The turn, of which nothing is promised here.
fn turn_of<B: Origin>(book: &mut Book<B>, worker: u8, op: u32) -> Turn {
    book.turn(worker, op)
}

fn after_stop<B: Origin>(mut book: Book<B>) -> Book<B> {
    book.stop();
    book
}

fn after_lanes<B: Origin, R: Wait>(rt: &R, book: Book<B>, lanes: &[u8]) -> Book<B> {
    let locked_run = LockedRun::new(book);
    for worker in 0..2 {
        locked_run.run_lane(rt, &Open, worker, lanes);
    }
    locked_run.into_book()
}

// Stops the run before the operation at one place, or behind that at another. It takes the lock for that, which its caller can't have
// then: it would wait for itself.
#[derive(Drop)]
struct StoppingGate<'a, B: Origin, R: Wait> {
    rt: &'a R,
    locked_run: &'a LockedRun<B>,
    stop: Stop,
    counting: CountingGate,
}

impl<B: Origin, R: Wait> Gate for StoppingGate<'_, B, R> {
    fn before(&self, worker: u8, op: u32) {
        self.counting.before(worker, op);
        if op == self.stop.before {
            self.locked_run.stop(self.rt);
        }
    }

    fn after(&self, worker: u8, op: u32) {
        self.counting.after(worker, op);
        if op == self.stop.after {
            self.locked_run.stop(self.rt);
        }
    }
}

fn after_run_to_stop<B: Origin, R: Wait + Abort>(
    rt: &R,
    book: Book<B>,
    lanes: &[u8],
    stop: Stop,
) -> Book<B> {
    let locked_run = LockedRun::new(book);
    run_to_stop(rt, &locked_run, lanes, stop);
    locked_run.into_book()
}

fn run_to_stop<B: Origin, R: Wait + Abort>(
    rt: &R,
    locked_run: &LockedRun<B>,
    lanes: &[u8],
    stop: Stop,
) {
    let gate = StoppingGate {
        rt,
        locked_run,
        stop,
        counting: CountingGate::new(),
    };
    locked_run.run_lane(rt, &gate, 0, lanes);
    let case = (stop.before, stop.after);
    gate.counting.expect(rt, stop.begun, stop.ended, &case)
}

// A thread for worker 0's lane is stopped when it has passed the gate and had some time.
fn stop_meanwhile<B: Origin + Send + Sync, R: Threads + Wait + Sync>(
    rt: &R,
    locked_run: &LockedRun<B>,
    gate: &CountingGate,
    lanes: &[u8],
) -> bool {
    thread::scope(thread::scope_env(), rt, move |scope| -> bool {
        let started = scope
            .spawn(move || locked_run.run_lane(rt, gate, 0, lanes))
            .is_ok();
        for _ in 0..LOOKS {
            if gate.before.load(Ordering::SeqCst) == 1 {
                break;
            }
            thread::yield_now();
        }
        for _ in 0..YIELDS {
            thread::yield_now();
        }
        locked_run.stop(rt);
        started
    })
}

// Worker 1 never lets its latch go, so worker 0 would wait for ever.
fn after_wait_for_stop<B: Origin + Send + Sync, R: Threads + Wait + Abort + Sync>(
    rt: &R,
    book: Book<B>,
    lanes: &[u8],
) -> Book<B> {
    let locked_run = LockedRun::new(book);
    let gate = CountingGate::new();
    assert!(rt; stop_meanwhile(rt, &locked_run, &gate, lanes));
    gate.expect(rt, 1, 0, &"a stop");
    locked_run.into_book()
}

fn expect_end<B: Origin>(rt: &impl Abort, alloc: Global, book: Book<B>, end: End)
    requires { IsLawfulCut B.ops B.assignment.workers B.assignment.lanes }
{
    match end {
        End::BothInserted => are_both_inserted(rt, &given(rt, settled(alloc, book))),
        End::Refused(refusal) => same(rt, &settled(alloc, book).err(), &Some(refusal)),
        End::Dropped => {}
    }
}

// The index that a book leaves, and the answers of its operations.
#[derive(Drop)]
struct Left {
    index: Index,
    answers: Vec<Answer>,
}

fn settled<B: Origin>(alloc: Global, book: Book<B>) -> Result<Left, RunError>
    requires { IsLawfulCut B.ops B.assignment.workers B.assignment.lanes }
{
    match book.settle(alloc) {
        Ok((tree, answers)) => Ok(Left {
            index: Index::from_rest(tree),
            answers,
        }),
        Err(refusal) => Err(refusal),
    }
}

fn are_both_inserted(rt: &impl Abort, left: &Left) {
    are_inserted(rt, Driver::Locked, &left.answers, 2);
    are_found(rt, Driver::Locked, &left.index, &TWO)
}

// Key 1 is worker 1's and key 2 worker 0's: each has one insertion, into the same leaf.
const TWO: [Op; 2] = [Op::Insert(1, 10), Op::Insert(2, 20)];

// Worker 1 has the latch of the leaf, which worker 0 wants.
const ONE_WAITS: [TurnTaken; 6] = [
    (1, 0, Turn::Took(Kind::ReadPrime, false)),
    (1, 0, Turn::Took(Kind::ReadPage(1), false)),
    (1, 0, Turn::Took(Kind::Latch(1), false)),
    (0, 1, Turn::Took(Kind::ReadPrime, false)),
    (0, 1, Turn::Took(Kind::ReadPage(1), false)),
    (0, 1, Turn::Waits),
];

// From there on worker 1 reads its page again, writes it and lets the latch go, and then its operation is over. The operation of
// the other worker isn't its own, and one isn't in the batch.
const ONE_ENDS: [TurnTaken; 7] = [
    (1, 0, Turn::Took(Kind::ReadPage(1), false)),
    (1, 0, Turn::Took(Kind::WritePage(1), false)),
    (1, 0, Turn::Took(Kind::Unlatch(1), true)),
    (1, 0, Turn::Over),
    (1, 1, Turn::Stopped),
    (0, 2, Turn::Stopped),
    (0, 1, Turn::Took(Kind::Latch(1), false)),
];

// The one would have waited, and the other would have moved.
const NONE_MOVES: [TurnTaken; 2] = [(0, 1, Turn::Stopped), (1, 0, Turn::Stopped)];

const BOTH_OVER: [TurnTaken; 2] = [(1, 0, Turn::Over), (0, 1, Turn::Over)];

// Three operations of one worker.
const THREE: [Op; 3] = [Op::Insert(2, 20), Op::Insert(4, 40), Op::Find(2)];

const PLAYS: [Play<'static>; 10] = [
    Play {
        name: "each turn returns its step",
        ops: &TWO,
        acts: &[Act::Takes(&ONE_WAITS), Act::Takes(&ONE_ENDS)],
        end: End::Dropped,
    },
    Play {
        name: "a stopped book takes no turn",
        ops: &TWO,
        acts: &[Act::Takes(&ONE_WAITS), Act::Stops, Act::Takes(&NONE_MOVES)],
        end: End::Refused(RunError::OutOfMemory),
    },
    // One operation is under way and the other waits for it: nobody takes the steps that are left.
    Play {
        name: "one operation waits for another, and nobody takes the steps that are left",
        ops: &TWO,
        acts: &[Act::Takes(&ONE_WAITS)],
        end: End::Refused(RunError::Foreign),
    },
    // Of a stopped book that isn't the reason.
    Play {
        name: "a stopped book with operations left",
        ops: &TWO,
        acts: &[Act::Stops],
        end: End::Refused(RunError::OutOfMemory),
    },
    Play {
        name: "no worker has begun",
        ops: &TWO,
        acts: &[],
        end: End::Refused(RunError::Foreign),
    },
    Play {
        name: "a book at its end is settled",
        ops: &TWO,
        acts: &[Act::RunsLanes, Act::Takes(&BOTH_OVER)],
        end: End::BothInserted,
    },
    Play {
        name: "a waiting worker sees the stop",
        ops: &TWO,
        acts: &[Act::Takes(&ONE_WAITS), Act::WaitsForStop],
        end: End::Refused(RunError::OutOfMemory),
    },
    // Three operations of one worker.
    Play {
        name: "a moving worker sees no stop, and ends",
        ops: &THREE,
        acts: &[Act::RunsToStop(Stop {
            before: 9,
            after: 9,
            begun: 3,
            ended: 3,
        })],
        end: End::Dropped,
    },
    Play {
        name: "a moving worker sees the stop before its second operation",
        ops: &THREE,
        acts: &[Act::RunsToStop(Stop {
            before: 1,
            after: 9,
            begun: 2,
            ended: 1,
        })],
        end: End::Refused(RunError::OutOfMemory),
    },
    Play {
        name: "a moving worker sees the stop behind its first operation",
        ops: &THREE,
        acts: &[Act::RunsToStop(Stop {
            before: 9,
            after: 0,
            begun: 2,
            ended: 1,
        })],
        end: End::Refused(RunError::OutOfMemory),
    },
];

// A book is settled at its end, unless it is stopped.
#[test]
fn books_end_so(rt: HostRuntime) {
    for play in &PLAYS {
        let name = play.name;
        expect_play(&Row { rt: &rt, name }, rt.alloc(), play);
    }
}
