//! The state of an operation after a step that gives it no more than that the step is done.
ghost use Rattle.std.specs.Prelude.{◌≡◌};
ghost use Rattle.blink_page.specs.{IsPageNumber};
ghost use Rattle.blink_machine.specs.Machine.{NeedsNew, at_state};
ghost use Rattle.blink_machine.specs.Table.{done, decided_with, leaves_for, sets_out};
ghost use Rattle.blink_machine.specs.Kept.{KeptForNext, IsPostable, IsToHalve, IsToRoot};
ghost use Rattle.blink_machine.specs.Needs.{NeedsNoRead};

use super::{Debt, Job, Machine, Next, State};

impl Machine {
    /// Reports that the operation has got the latch, has written the page or the prime block, or has released the latch. `new`
    /// is the number of a new page, from 1 to 1,048,575, and 0 after any other step.
    pub fn done(&mut self, new: u32)
        requires needs { NeedsNoRead self.old }
        requires new_number { NeedsNew self.old → IsPageNumber new }
        ensures { self.new ≡ done self.old new }
    {
        match &self.state {
            State::Want(page) => self.state = State::Held(*page),
            State::Change(page, _, kept) => {
                let (page, kept) = (*page, *kept);
                self.written(kept);
                self.state = State::Leave(page, Next::Finish);
            }
            State::SplitNew(page, _) => {
                let page = *page;
                self.halve(page, new);
            }
            State::SplitOld(page, _, debt) => {
                let (page, debt) = (*page, *debt);
                self.written(None);
                self.ask_prime(page, debt);
            }
            State::Root(page, ..) => {
                let page = *page;
                self.name_root(page, new);
            }
            State::NewPrime(page, ..) => self.state = State::Leave(*page, Next::Finish),
            State::Leave(_, next) => {
                let next = *next;
                self.leave(next);
            }
            _ => unreachable!(),
        }
    }

    // Answers after the write of a page, if the operation is on a leaf: that write is the deciding step. A posting has decided
    // before.
    fn written(&mut self, kept: Option<u64>)
        ensures { self.new ≡ decided_with self.old self.old.job self.old.state kept }
    {
        if let Job::Leaf = self.job {
            self.answer = Some(self.op.answer(kept));
        }
    }

    // Goes on after the write of the upper half as page `new`. The lower half is to be written next, and the split owes its
    // debt to the level above. The function is out of line, so that only a split clears room for two pages.
    #[inline(never)]
    fn halve(&mut self, page: u32, new: u32)
        requires state { IsToHalve self.old page }
        requires new_number { IsPageNumber new }
        ensures { self.new ≡ done self.old new }
    {
        let State::SplitNew(_, before) = &self.state else {
            unreachable!()
        };
        let lower = before.lower_with(self.fan, self.target(), self.value(), new);
        let debt = Debt {
            level: before.level,
            separator: lower.high,
            page: new,
        };
        self.state = State::SplitOld(page, lower, debt);
    }

    // Goes on after the write of the lower half. The function is out of line, as `halve` is.
    #[inline(never)]
    fn ask_prime(&mut self, page: u32, debt: Debt)
        requires { IsPostable debt }
        ensures { self.new ≡ at_state self.old (State.AskPrime page debt) }
    {
        self.state = State::AskPrime(page, debt);
    }

    // Goes on after the write of the new root as page `new`. The function is out of line, as `halve` is.
    #[inline(never)]
    fn name_root(&mut self, page: u32, new: u32)
        requires state { IsToRoot self.old page }
        requires new_number { IsPageNumber new }
        ensures { self.new ≡ done self.old new }
    {
        let State::Root(_, debt, prime) = &self.state else {
            unreachable!()
        };
        self.state = State::NewPrime(page, *debt, new, prime.copy());
    }

    // Goes on after the page's latch is released.
    fn leave(&mut self, next: Next)
        requires { KeptForNext self.old next }
        ensures { self.new ≡ leaves_for self.old next }
    {
        match next {
            Next::Finish => self.state = State::Ended,
            Next::MoveRight(page) => self.state = State::Want(page),
            Next::Post(debt) => self.set_out(debt),
        }
    }

    // Sets out to post a debt to the level above it. It goes to the page that it remembers of that level, if it remembers one.
    fn set_out(&mut self, debt: Debt)
        requires { IsPostable debt }
        ensures { self.new ≡ sets_out self.old debt self.old.remembered }
    {
        self.job = Job::Parent(debt);
        match self.remembered.pop() {
            Some(page) => self.state = State::Want(page),
            None => self.state = State::Posting,
        }
    }
}
