//! The prime block, which names the leftmost page of each level.
ghost use Rattle.std.specs.Prelude.{◌≡◌, ◌<◌, [], ◌∷◌, ◌++◌, length};
ghost use Rattle.blink_page.specs.Limits.{IsPageNumber};

use crate::limits::LEVELS;
use arrayvec::ArrayVec;
use std::marker::Model;

/// The prime block: the numbers of the leftmost pages, level 0 first (Lehman and Yao 1981). The last is the leftmost page of the
/// top level. The prime block names at least one page, and each number is from 1 to `MAX_PAGE`.
#[derive(Debug, Drop, PartialEq, Eq)]
pub struct Prime {
    pub leftmost: ArrayVec<u32, LEVELS>,
}

impl Model for Prime {
    ghost use Rattle.std.specs.Prelude.{ℕ, ◌<◌, List, length, All};
    ghost use Rattle.blink_page.specs.Limits.{IsPageNumber};

    ghost Value = { List ℕ };

    ghost view = { λ prime. prime.leftmost.items };

    ghost invariant = { λ prime. (0 < length prime.leftmost.items) × All IsPageNumber prime.leftmost.items };

    ghost inverse = { λ leftmost. record { leftmost = record { items = leftmost } } };
}

impl Prime {
    /// Makes the prime block of a new tree, whose only page is page 1.
    pub fn new() -> Prime
        ensures { result ≡ 1 ∷ [] }
    {
        let mut leftmost = ArrayVec::new();
        leftmost.push(1);
        Prime { leftmost }
    }

    /// Adds the only page of a new top level.
    pub fn grow(&mut self, page: u32)
        requires room { length self.old < LEVELS }
        requires page_number { IsPageNumber page }
        ensures { self.new ≡ self.old ++ page ∷ [] }
    {
        self.leftmost.push(page);
    }

    /// Copies the prime block. The call takes no memory.
    pub fn copy(&self) -> Prime
        ensures { result ≡ self.now }
    {
        let mut leftmost = ArrayVec::new();
        let _fits = leftmost.try_extend_from_slice(&self.leftmost);
        Prime { leftmost }
    }
}
