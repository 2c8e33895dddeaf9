//! What an operation writes.
ghost use Rattle.std.specs.Prelude.{◌≡◌};
ghost use Rattle.blink_page.specs.{IsPageNumber};
ghost use Rattle.blink_machine.specs.Machine.{NeedsNew, NeedsWrite, NeedsPrimeWrite};
ghost use Rattle.blink_machine.specs.Table.{page_out, PrimeOut};
ghost use Rattle.blink_machine.specs.Needs.{NeedsSomeWrite};

use super::{Machine, State};
use blink_page::{Page, Prime};

impl Machine {
    /// Returns the page that the next write writes. `new` is the number of a new page, from 1 to 1,048,575, and 0 for any other.
    pub fn page_out(&self, new: u32) -> Page
        requires needs { NeedsSomeWrite self.now }
        requires new_number { NeedsNew self.now → IsPageNumber new }
        ensures { result ≡ page_out self.now new }
    {
        match &self.state {
            State::Change(_, changed, _) => changed.copy(),
            State::SplitNew(_, before) => {
                before.upper_with(self.fan, self.target(), self.value())
            }
            State::SplitOld(_, lower, _) => lower.copy(),
            State::Root(page, debt, _) => {
                Page::root(debt.level + 1, debt.separator, *page, debt.page)
            }
            _ => unreachable!(),
        }
    }

    /// Returns the page by which the next write replaces page `number`: `page_out` without a copy.
    pub fn page_in_place(&self, number: u32) -> &Page
        requires { NeedsWrite self.now number }
        ensures { result.now ≡ page_out self.now 0 }
    {
        // Read for the proof: the needed write is of this number.
        let _number = number;
        match &self.state {
            State::Change(_, page, _) | State::SplitOld(_, page, _) => page,
            _ => unreachable!(),
        }
    }

    /// Returns the prime block that the next write writes: the one that the operation has read, with its new root added.
    pub fn prime_out(&self) -> Prime
        requires { NeedsPrimeWrite self.now }
        ensures { PrimeOut self.now result }
    {
        let State::NewPrime(_, _, root, read) = &self.state else {
            unreachable!()
        };
        let mut prime = read.copy();
        prime.grow(*root);
        prime
    }
}
