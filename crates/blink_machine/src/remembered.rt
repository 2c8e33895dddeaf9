//! The pages that an operation remembers of its descent.
ghost use Rattle.std.specs.Prelude.{◌≡◌, ◌<◌, [], ◌∷◌, length, reverse, MatchOption};

use arrayvec::ArrayVec;
use blink_page::LEVELS;
use std::marker::Model;

/// The page that an operation read last on each level. Contracts see the lowest level first.
#[derive(Drop)]
pub(crate) struct Remembered {
    // The top level first.
    pages: ArrayVec<u32, LEVELS>,
}

impl Model for Remembered {
    ghost use Rattle.std.specs.Prelude.{ℕ, List, reverse};

    ghost Value = { List ℕ };

    ghost view = { λ remembered. reverse remembered.pages.items };
}

impl Remembered {
    /// No pages.
    pub(crate) fn new() -> Remembered
        ensures { result ≡ [] }
    {
        Remembered {
            pages: ArrayVec::new(),
        }
    }

    /// The same pages.
    pub(crate) fn copy(&self) -> Remembered
        ensures { result ≡ self.now }
    {
        let mut pages = ArrayVec::new();
        let _fits = pages.try_extend_from_slice(&self.pages);
        Remembered { pages }
    }

    /// The pages, the top level first.
    pub(crate) fn pages(&self) -> &[u32]
        ensures { self.now ≡ reverse result.now }
    {
        &self.pages
    }

    /// Remembers a page of the next lower level.
    pub(crate) fn push(&mut self, page: u32)
        requires { length self.old < LEVELS }
        ensures { self.new ≡ page ∷ self.old }
    {
        self.pages.push(page);
    }

    /// Removes the remembered page of the lowest level, and returns it.
    pub(crate) fn pop(&mut self) -> Option<u32>
        ensures { MatchOption result
            ((self.old ≡ []) × (self.new ≡ []))
            (λ page. self.old ≡ page ∷ self.new) }
    {
        self.pages.pop()
    }
}
