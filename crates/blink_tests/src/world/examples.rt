//! Examples of worlds, told as what is done and what is to be seen.
//!
//! An example is a constant, which costs nothing to prove: the functions here that carry examples out are proved once.
use crate::fixtures::row::Row;
use crate::fixtures::stores::{self, empty_tree};
use crate::fixtures::worlds::{
    Work, finish, full_leaf, has_answers, has_order, keys_to, tree_after, two_leaves, world_of,
};
use crate::fixtures::{given, same, same_for};
use blink_batch::Answer;
use blink_rest::Rest;
use blink_steps::{Debt, Job, Kind, State, Step, StepError, Working, World};
use std::alloc::Global;
use std::process::Abort;

// A tree of fan 4.
#[derive(Clone, Copy)]
pub enum Tree {
    Empty,
    // One leaf, which is full.
    FullLeaf,
    // Two leaves and their root.
    TwoLeaves,
    // The keys from 1 to this one.
    KeysTo(u64),
}

// What is done, and what is to be seen then.
#[derive(Clone, Copy)]
pub enum Act<'a> {
    // The worker takes these steps.
    Take(u8, &'a [Kind]),
    // A turn of this worker comes to this.
    Turn(u8, Result<Step, StepError>),
    // This worker is picked, and its turn comes to this.
    Advance(u8, Step),
    // All operations come to their ends.
    Finish,
    // The world is seen so.
    See(Sight<'a>),
    // Its store is seen so.
    Store(&'a [stores::Sight<'a>]),
}

// What is to be seen of a world.
#[derive(Clone, Copy)]
pub enum Sight<'a> {
    // The answers so far.
    Answers(&'a [Option<Answer>]),
    // The operations at these places have decided, in this order.
    Order(&'a [u32]),
    // These workers have had the turns so far.
    Schedule(&'a [u8]),
    // Whether all operations have ended.
    Ended(bool),
    // How many workers there are.
    Workers(u8),
    // The worker whose turn is next.
    Picked(Option<u8>),
    // Whether the worker's next turn would be a wait, and whether it is idle.
    Worker(u8, bool, bool),
    // The operations have taken so many steps, each at its place.
    Moved(&'a [u64]),
    // The operation at this place has taken so many steps.
    MovedAt(u32, u64),
    // The operation at this place has read so many pages.
    Read(u32, u64),
    // The holder of the latch of this page.
    Holder(u32, Option<u8>),
    // The worker has no operation under way.
    NoWork(u8),
    // The worker's operation is the first one, has split page 1 of level 0, and owes this before it writes page 1.
    HalfSplit(u8, Debt),
}

// A batch over a tree, the turns that begin it, and what goes on then. If the example goes to its end, its tree is seen so.
#[derive(Clone, Copy)]
pub struct Example<'a> {
    pub name: &'a str,
    pub tree: Tree,
    pub work: Work<'a>,
    pub schedule: &'a [u8],
    pub acts: &'a [Act<'a>],
    pub leaves: Option<&'a [stores::Sight<'a>]>,
}

// The tree.
fn tree_of(rt: &impl Abort, alloc: Global, tree: Tree) -> Rest {
    match tree {
        Tree::Empty => empty_tree(rt, alloc, 4),
        Tree::FullLeaf => full_leaf(rt, alloc),
        Tree::TwoLeaves => two_leaves(rt, alloc),
        Tree::KeysTo(last) => keys_to(rt, alloc, 4, last),
    }
}

// The world of the example, after all that goes on in it.
pub fn world_after(rt: &impl Abort, alloc: Global, example: &Example) -> World {
    let rest = tree_of(rt, alloc, example.tree);
    let mut world = world_of(rt, alloc, rest, &example.work, example.schedule);
    goes_on(rt, &mut world, example.acts);
    world
}

fn goes_on(rt: &impl Abort, world: &mut World, acts: &[Act]) {
    for &act in acts {
        does(rt, world, act);
    }
}

// Each example goes so.
pub fn go(rt: &impl Abort, alloc: Global, examples: &[&Example]) {
    for &example in examples {
        let name = example.name;
        goes(&Row { rt, name }, alloc, example);
    }
}

fn goes(rt: &impl Abort, alloc: Global, example: &Example) {
    let world = world_after(rt, alloc, example);
    if let Some(sights) = example.leaves {
        stores::is_seen(rt, tree_after(rt, world).store(), sights);
    }
}

fn does(rt: &impl Abort, world: &mut World, act: Act) {
    match act {
        Act::Take(worker, kinds) => takes(rt, world, worker, kinds),
        Act::Turn(worker, step) => turns_to(rt, world, worker, step),
        Act::Advance(worker, step) => advances(rt, world, worker, step),
        Act::Finish => finish(rt, world),
        Act::See(sight) => is_seen(rt, world, sight),
        Act::Store(sights) => stores::is_seen(rt, world.store(), sights),
    }
}

fn turns_to(rt: &impl Abort, world: &mut World, worker: u8, step: Result<Step, StepError>) {
    let result = world.step(worker);
    same_for(rt, &result, &step, &world.schedule());
}

fn advances(rt: &impl Abort, world: &mut World, worker: u8, step: Step) {
    let Some(picked) = world.pick() else {
        panic!(rt; "nobody is picked");
    };
    same(rt, &picked, &worker);
    same(rt, &given(rt, world.advance(picked)), &step);
}

fn takes(rt: &impl Abort, world: &mut World, worker: u8, kinds: &[Kind]) {
    for &kind in kinds {
        turns_to(rt, world, worker, Ok(Step::Moved(kind)));
    }
}

// The world is seen so.
pub fn is_seen(rt: &impl Abort, world: &World, sight: Sight) {
    match sight {
        Sight::Answers(answers) => has_answers(rt, world, answers),
        Sight::Order(order) => has_order(rt, world, order),
        Sight::Schedule(schedule) => same(rt, &world.schedule(), &schedule),
        Sight::Ended(expected) => same_for(rt, &world.ended(), &expected, &world.schedule()),
        Sight::Workers(count) => same(rt, &world.workers(), &count),
        Sight::Picked(worker) => same_for(rt, &world.pick(), &worker, &world.schedule()),
        Sight::Worker(worker, waits, idle) => shows_worker(rt, world, worker, waits, idle),
        Sight::Moved(moves) => have_moved(rt, world, moves),
        Sight::MovedAt(place, count) => has_moved(rt, world, place, count),
        Sight::Read(place, count) => has_read(rt, world, place, count),
        Sight::Holder(page, worker) => same_for(rt, &world.latches().holder(page), &worker, &page),
        Sight::NoWork(worker) => is_without_work(rt, world, worker),
        Sight::HalfSplit(worker, owed) => is_half_split(rt, work_of(rt, world, worker), owed),
    }
}

fn shows_worker(rt: &impl Abort, world: &World, worker: u8, waits: bool, idle: bool) {
    assert!(rt; worker < world.workers());
    same_for(rt, &world.waits(worker), &waits, &worker);
    same_for(rt, &world.is_idle(worker), &idle, &worker);
}

fn have_moved(rt: &impl Abort, world: &World, moves: &[u64]) {
    for (place, count) in (0u32..).zip(moves.iter()) {
        has_moved(rt, world, place, *count);
    }
}

fn has_moved(rt: &impl Abort, world: &World, place: u32, moves: u64) {
    assert!(rt; (place as usize) < world.answers().len());
    same_for(rt, &world.moves_of(place), &moves, &place);
}

fn has_read(rt: &impl Abort, world: &World, place: u32, count: u64) {
    assert!(rt; (place as usize) < world.answers().len());
    same_for(rt, &world.reads_of(place), &count, &place);
}

fn is_without_work(rt: &impl Abort, world: &World, worker: u8) {
    assert!(rt; worker < world.workers());
    assert!(rt; world.working(worker).is_none());
}

// The first operation has written the new page, and is to write the old one, page 1, by an operation that owes this.
fn is_half_split(rt: &impl Abort, working: &Working, owed: Debt) {
    let writes_first =
        matches!(working.machine.state(), State::SplitOld(1, _, debt) if *debt == owed);
    assert!(rt; writes_first);
    same(rt, &working.place, &0);
    same(rt, &working.machine.job(), &Job::Leaf);
    assert!(rt; working.machine.remembered().is_empty());
}

// What the worker has under way.
pub fn work_of<'a>(rt: &impl Abort, world: &'a World, worker: u8) -> &'a Working {
    assert!(rt; worker < world.workers());
    world.working(worker).expect(rt, "the worker is idle")
}
