//! The latches: which worker holds which page's latch.
ghost use Rattle.std.specs.Prelude.{◌≡◌, ◌<◌, ◌↔◌, ℕ, IsTrue, Some, None, IfSome};
ghost use Rattle.std.specs.Bool.{OnTrue, OnFalse};
ghost use Rattle.blink_store.specs.Latches.{holder_of, IsHeldByOne, HoldsNone, ChangesHolder};

use std::marker::Model;

/// The greatest number of workers. They are numbered from 0 on.
pub const WORKERS: usize = 64;

/// The latches of the pages of a tree, each held by at most one worker.
///
/// A worker holds at most one latch. So the page of each worker determines all latches, however many pages the tree has.
#[derive(Debug, Drop)]
pub struct Latches {
    held: [Option<u32>; WORKERS],
    // No worker from this one on has held a latch. So a search for a holder stops here.
    reach: usize,
}

impl Model for Latches {
    ghost use Rattle.std.specs.Prelude.{ℕ, Option, List};

    ghost Value = { List (Option ℕ) };

    ghost use Rattle.blink_store.specs.Latches.{IsHeldByOne, IsHeldBelow};

    ghost view = { λ latches. latches.held };

    ghost invariant = { λ latches. IsHeldByOne latches.held × IsHeldBelow latches.held latches.reach };
}

impl Latches {
    /// Makes the latches of a tree of which no latch is held.
    pub fn new() -> Latches
        ensures { (page : ℕ) → holder_of result page ≡ None }
    {
        Latches {
            held: [None; WORKERS],
            reach: 0,
        }
    }

    /// Latches a page for a worker, unless another worker holds the latch, and returns whether the worker got it.
    pub fn try_latch(&mut self, page: u32, worker: u8) -> bool
        requires worker { worker < WORKERS }
        requires holds_none { HoldsNone self.old worker }
        ensures free { IsTrue result ↔ (holder_of self.old page ≡ None) }
        ensures held { OnTrue result (ChangesHolder self.old self.new page (Some worker)) }
        ensures unchanged { OnFalse result (self.new ≡ self.old) }
    {
        if self.holder(page).is_some() {
            return false;
        }
        self.held[usize::from(worker)] = Some(page);
        self.reach = self.reach.max(worker as usize + 1);
        true
    }

    /// Releases the latch that the worker holds.
    pub fn unlatch(&mut self, page: u32, worker: u8)
        requires { holder_of self.old page ≡ Some worker }
        ensures { ChangesHolder self.old self.new page None }
    {
        self.held[usize::from(worker)] = None;
    }

    /// Returns the worker that holds the page's latch.
    pub fn holder(&self, page: u32) -> Option<u8>
        ensures holder { result ≡ holder_of self.now page }
        ensures worker { IfSome result (λ worker. worker < WORKERS) }
        ensures by_one { IsHeldByOne self.now }
    {
        for worker in 0..self.reach {
            if self.held[worker] == Some(page) {
                return Some(worker as u8);
            }
        }
        None
    }
}
