//! The locked run: its workers take turns at the book, each in a thread of its own.

use crate::book::{Book, Turn};
use crate::gate::Gate;
use crate::origin::Origin;
use blink_steps::Kind;
use std::sync::{Condvar, Mutex, MutexGuard, Wait};
use std::thread;

/// How often a waiting worker looks at the book again before it sleeps until the book has changed.
const LOOKS: usize = 16;

/// How often a worker tries the lock, and yields, before it sleeps until it has the lock.
const TRIES: usize = 20;

/// How many turns a worker takes at most before it releases the lock. Few operations take more.
const TURNS: usize = 32;

/// A book that one worker at a time writes: each step is taken under its lock.
#[derive(Drop)]
pub struct LockedRun<B: Origin> {
    book: Mutex<Book<B>>,
    // Notified when a worker has released a latch, has written the prime block, or has found the run stopped. Workers wait for
    // nothing else.
    changed: Condvar,
}

impl<B: Origin> LockedRun<B> {
    /// Makes a locked run for this book.
    pub fn new(book: Book<B>) -> LockedRun<B> {
        LockedRun {
            book: Mutex::new(book),
            changed: Condvar::new(),
        }
    }

    /// Runs a worker's lane, one operation after another, to its end or until the run is stopped. It calls the gate between
    /// operations, when the worker has neither the lock nor a latch.
    pub fn run_lane<R: Wait, G: Gate>(&self, rt: &R, gate: &G, worker: u8, lanes: &[u8]) {
        for (op, &lane) in (0..u32::MAX).zip(lanes) {
            if lane == worker {
                gate.before(worker, op);
                if !self.run_operation(rt, worker, op) {
                    return;
                }
                gate.after(worker, op);
            }
        }
    }

    // Takes the operation's turns until it has ended, and returns `true`; or until the run is stopped, and returns `false`.
    fn run_operation<R: Wait>(&self, rt: &R, worker: u8, op: u32) -> bool {
        for _ in rt.forever() {
            match self.turns(rt, worker, op) {
                Turn::Took(_, false) | Turn::Waits => {}
                Turn::Took(_, true) | Turn::Over => return true,
                Turn::Stopped => return false,
            }
        }
        unreachable!()
    }

    // Takes the worker's next turns, the first of which is no wait, and returns the last. After some looks the worker sleeps
    // until the book has changed.
    fn turns<R: Wait>(&self, rt: &R, worker: u8, op: u32) -> Turn {
        for _ in 0..LOOKS {
            let (turn, wakes) = turns_at(&mut self.enter(rt), worker, op);
            if wakes {
                self.changed.notify_all();
            }
            if !matches!(turn, Turn::Waits) {
                return turn;
            }
            thread::yield_now();
        }
        let turn = self.turn_after_sleep(rt, worker, op);
        if wakes_others(turn) {
            self.changed.notify_all();
        }
        turn
    }

    // Takes the turn of a worker that sleeps until the book has changed.
    fn turn_after_sleep<R: Wait>(&self, rt: &R, worker: u8, op: u32) -> Turn {
        let mut book = self.enter(rt);
        for _ in rt.forever() {
            let turn = book.turn(worker, op);
            if !matches!(turn, Turn::Waits) {
                return turn;
            }
            book = self.changed.wait(rt, book);
        }
        unreachable!()
    }

    // Locks the book. The worker tries before it sleeps: operations are short, and a worker that sleeps for each one's lock is
    // mostly asleep.
    fn enter<R: Wait>(&self, rt: &R) -> MutexGuard<'_, Book<B>> {
        for _ in 0..TRIES {
            if let Some(book) = self.book.try_lock() {
                return book;
            }
            thread::yield_now();
        }
        self.book.lock(rt)
    }

    /// Stops the run.
    pub fn stop<R: Wait>(&self, rt: &R) {
        self.enter(rt).stop();
        self.changed.notify_all();
    }

    /// Returns the book, when all workers have left.
    pub fn into_book(self) -> Book<B> {
        self.book.into_inner()
    }
}

// Takes turns of the operation at the book until one ends the operation, would be a wait or finds the run stopped, or until there
// were many. It returns the last, and whether any of them wakes other workers.
fn turns_at<B: Origin>(book: &mut Book<B>, worker: u8, op: u32) -> (Turn, bool) {
    let mut turn = book.turn(worker, op);
    let mut wakes = wakes_others(turn);
    for _ in 1..TURNS {
        if !matches!(turn, Turn::Took(_, false)) {
            break;
        }
        turn = book.turn(worker, op);
        wakes = wakes || wakes_others(turn);
    }
    (turn, wakes)
}

// Whether other workers may have waited for what this turn has done.
fn wakes_others(turn: Turn) -> bool {
    matches!(
        turn,
        Turn::Took(Kind::Unlatch(_) | Kind::WritePrime, _) | Turn::Stopped
    )
}
