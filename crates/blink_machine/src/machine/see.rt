//! The state of an operation after a read.
ghost use Rattle.std.specs.Prelude.{◌≡◌, ◌↔◌, ℕ, ◌<◌, ◌≤◌, ◌+◌, List, Some, length, IsTrue};
ghost use Rattle.std.specs.Bool.{OnTrue, OnFalse};
ghost use Rattle.blink_page.specs.declared.limits.TheConstants.{LEVELS};
ghost use Rattle.blink_page.specs.{least_above, value_at, PlainPage};
ghost use Rattle.blink_machine.specs.Machine.{NeedsPrime, NeedsPage, level_of, level_read, target};
ghost use Rattle.blink_operation.specs.declared.Op.TheVariants.{Find};
ghost use Rattle.blink_page.specs.declared.search.Way.TheVariants.{Here};
ghost use Rattle.blink_machine.specs.OnTheWay.{IsOnItsWay, TellsWay};
ghost use Rattle.blink_machine.specs.Table.{Expects, SeesPrime, SeesTop, WaitsForLevel, SeesPage, SeesOnItsWay, SeesUnderLatch};
ghost use Rattle.blink_machine.specs.Needs.{NeedsSomePage};

use super::{Debt, Job, Machine, Next, State};
use crate::remembered::Remembered;
use blink_operation::{Answer, Op};
use blink_page::{Page, Post, Prime, Put, Way};

impl Machine {
    /// Hands the operation the prime block that it needs, of fewer than 21 levels. It returns `false` if the operation waits,
    /// since the level to post to isn't there yet. Then the operation is as it was, and has to read the prime block again.
    pub fn saw_prime(&mut self, prime: &Prime) -> bool
        requires needs { NeedsPrime self.old }
        requires few_levels { length prime.now < LEVELS }
        ensures moved { OnTrue result (SeesPrime self.old prime.now self.new) }
        ensures waits { OnFalse result (WaitsForLevel self.old prime.now) }
        ensures unchanged { OnFalse result (self.new ≡ self.old) }
    {
        match self.state {
            State::Start => self.begin(prime),
            State::AskPrime(page, debt) => self.ask(page, debt, prime),
            State::Posting => return self.find_level(prime),
            _ => unreachable!(),
        }
        true
    }

    // Begins at the root, the last page that the prime block names.
    fn begin(&mut self, prime: &Prime)
        requires state { self.old.state ≡ State.Start }
        requires few_levels { length prime.now < LEVELS }
        ensures { SeesPrime self.old prime.now self.new }
    {
        let top = prime.leftmost.len() - 1;
        self.saw_top(top as u8, prime.leftmost[top]);
    }

    /// Hands the operation the top level and its leftmost page. That much of the prime block is enough to begin.
    pub fn saw_top(&mut self, level: u8, page: u32)
        requires state { self.old.state ≡ State.Start }
        requires few_levels { level + 1 < LEVELS }
        ensures { SeesTop self.old level page self.new }
    {
        self.remembered = Remembered::new();
        self.state = State::Going(page, level);
    }

    // Goes on to make a new root if the page that it has split was the root; otherwise posts the split.
    fn ask(&mut self, page: u32, debt: Debt, prime: &Prime)
        requires state { self.old.state ≡ State.AskPrime page debt }
        requires few_levels { length prime.now < LEVELS }
        ensures { SeesPrime self.old prime.now self.new }
    {
        let level = usize::from(debt.level);
        if prime.leftmost.len() == level + 1 && prime.leftmost[level] == page {
            self.state = State::Root(page, debt, prime.copy());
        } else {
            self.state = State::Leave(page, Next::Post(debt));
        }
    }

    // Goes to the leftmost page of the level to post to, if that level exists.
    fn find_level(&mut self, prime: &Prime) -> bool
        requires { self.old.state ≡ State.Posting }
        ensures moved { OnTrue result (SeesPrime self.old prime.now self.new) }
        ensures waits { OnFalse result (WaitsForLevel self.old prime.now) }
        ensures unchanged { OnFalse result (self.new ≡ self.old) }
    {
        let Job::Parent(debt) = self.job else {
            unreachable!()
        };
        let Some(&leftmost) = prime.leftmost.get(usize::from(debt.level) + 1) else {
            return false;
        };
        self.state = State::Want(leftmost);
        true
    }

    /// Returns whether the operation would read the prime block in vain, since the level to post to isn't there yet.
    pub fn waits_for_level(&self, prime: &Prime) -> bool
        ensures { IsTrue result ↔ WaitsForLevel self.now prime.now }
    {
        match (&self.state, self.job) {
            (State::Posting, Job::Parent(debt)) => {
                prime.leftmost.len() <= usize::from(debt.level) + 1
            }
            _ => false,
        }
    }

    /// Hands the operation the page that it needs. The page has the level that the operation's state says, no floor or one below
    /// its key, and at most `fan` entries. While the invariant holds, each page that it needs is such a page.
    pub fn saw_page(&mut self, page: &Page)
        requires needs { NeedsSomePage self.old }
        requires level { page.now.level ≡ level_read self.old }
        requires below { least_above page.now.floor ≤ target self.old }
        requires at_most_fan { length page.now.entries ≤ self.old.fan }
        ensures { (number : ℕ) → NeedsPage self.old number
            → SeesPage self.old number page.now self.new }
    {
        match self.state {
            State::Going(number, level) => self.read_on_its_way(number, level, page),
            State::Held(number) => self.read_under_latch(number, page.copy()),
            _ => unreachable!(),
        }
    }

    /// Hands the operation the page as `saw_page` does. An operation that changes the page makes no copy of it.
    pub fn saw_own_page(&mut self, page: Page)
        requires needs { NeedsSomePage self.old }
        requires level { page.level ≡ level_read self.old }
        requires below { least_above page.floor ≤ target self.old }
        requires at_most_fan { length page.entries ≤ self.old.fan }
        ensures { (number : ℕ) → NeedsPage self.old number → SeesPage self.old number page self.new }
    {
        match self.state {
            State::Going(number, level) => self.read_on_its_way(number, level, &page),
            State::Held(number) => self.read_under_latch(number, page),
            _ => unreachable!(),
        }
    }

    // Goes right or down; at the leaf it does what needs no latch.
    fn read_on_its_way(&mut self, number: u32, level: u8, page: &Page)
        requires state { self.old.state ≡ State.Going number level }
        requires level { page.now.level ≡ level }
        ensures { SeesOnItsWay self.old number page.now self.new }
    {
        let way = page.way(self.target());
        let kept = self.kept_at_end(page, way);
        self.saw_way(way, kept);
    }

    // The pointer that the page stores for a find's key, if the find's descent ends there.
    fn kept_at_end(&self, page: &Page, way: Way) -> Option<u64>
        ensures { (key : ℕ) → self.now.op ≡ Find key → way ≡ Here
            → value_at key page.now.entries ≡ result }
    {
        match (way, self.op) {
            (Way::Here, Op::Find(key)) => page.look(key),
            _ => None,
        }
    }

    /// Hands a descending operation where its key leads from the page that it needs. For a find at the key's leaf, `kept` is the
    /// pointer that the leaf stores for the key. So the operation need not be handed the page.
    pub fn saw_way(&mut self, way: Way, kept: Option<u64>)
        requires on_its_way { IsOnItsWay self.old }
        requires read { (page : PlainPage) × TellsWay self.old page way kept }
        ensures { (number : ℕ) (page : PlainPage) → NeedsPage self.old number
            → TellsWay self.old page way kept → SeesOnItsWay self.old number page self.new }
    {
        let State::Going(number, level) = self.state else {
            unreachable!()
        };
        match way {
            Way::Right(next) => self.state.go(next, level),
            Way::Down(child) => {
                self.remembered.push(number);
                self.state.go(child, level - 1);
            }
            Way::Here => match self.op {
                Op::Find(key) => self.decide(State::Ended, Op::Find(key).answer(kept)),
                Op::Insert(..)
                | Op::Delete(_)
                | Op::Replace(..)
                | Op::Exchange(..)
                | Op::DeleteExact(..) => {
                    self.state = State::Want(number);
                }
            },
        }
    }

    // Reads the page again under its latch. No other worker changes it now; it may have been split before.
    fn read_under_latch(&mut self, number: u32, page: Page)
        requires state { self.old.state ≡ State.Held number }
        requires level { page.level ≡ level_of self.old.job }
        requires below { least_above page.floor ≤ target self.old }
        requires at_most_fan { length page.entries ≤ self.old.fan }
        ensures { SeesUnderLatch self.old number page self.new }
    {
        if let Way::Right(next) = page.way(self.target()) {
            self.state = State::Leave(number, Next::MoveRight(next));
            return;
        }
        match (self.job, self.op) {
            (Job::Leaf, Op::Insert(key, pointer)) => self.insert(number, page, key, pointer),
            (Job::Leaf, Op::Delete(key)) => self.delete(number, page, key),
            (Job::Leaf, Op::Replace(key, pointer)) => self.replace(number, page, key, pointer),
            (Job::Leaf, Op::Exchange(key, expected, pointer)) => {
                self.exchange(number, page, key, expected, pointer);
            }
            (Job::Leaf, Op::DeleteExact(key, expected)) => {
                self.delete_exact(number, page, key, expected);
            }
            (Job::Leaf, Op::Find(_)) => unreachable!(),
            (Job::Parent(debt), _) => self.post(number, page, debt),
        }
    }

    // Adds the operation's entry to the leaf unless the key is present, or splits the leaf.
    fn insert(&mut self, number: u32, page: Page, key: u64, pointer: u64)
        requires state { self.old.state ≡ State.Held number }
        requires job { self.old.job ≡ Job.Leaf }
        requires op { self.old.op ≡ Op.Insert key pointer }
        requires level { page.level ≡ 0 }
        requires above { least_above page.floor ≤ key }
        requires not_right { key ≤ page.high }
        requires at_most_fan { length page.entries ≤ self.old.fan }
        ensures { SeesUnderLatch self.old number page self.new }
    {
        let mut changed = page;
        match changed.put(self.fan, key, pointer) {
            Put::Done => self.state = State::Change(number, changed, None),
            Put::Present(kept) => {
                self.decide(State::Leave(number, Next::Finish), Answer::Exists(kept));
            }
            Put::Full => self.state = State::SplitNew(number, changed),
        }
    }

    // Removes the key's entry from the leaf, if the key is present.
    fn delete(&mut self, number: u32, page: Page, key: u64)
        requires state { self.old.state ≡ State.Held number }
        requires job { self.old.job ≡ Job.Leaf }
        requires op { self.old.op ≡ Op.Delete key }
        requires level { page.level ≡ 0 }
        requires not_right { key ≤ page.high }
        ensures { SeesUnderLatch self.old number page self.new }
    {
        let mut changed = page;
        match changed.take(key) {
            Some(kept) => self.state = State::Change(number, changed, Some(kept)),
            None => self.decide(State::Leave(number, Next::Finish), Answer::Absent),
        }
    }

    // Replaces the key's pointer in the leaf by the operation's, if the key is present.
    fn replace(&mut self, number: u32, page: Page, key: u64, pointer: u64)
        requires state { self.old.state ≡ State.Held number }
        requires job { self.old.job ≡ Job.Leaf }
        requires op { self.old.op ≡ Op.Replace key pointer }
        requires level { page.level ≡ 0 }
        requires not_right { key ≤ page.high }
        ensures { SeesUnderLatch self.old number page self.new }
    {
        let mut changed = page;
        match changed.swap(key, pointer) {
            Some(before) => self.state = State::Change(number, changed, Some(before)),
            None => self.decide(State::Leave(number, Next::Finish), Answer::Absent),
        }
    }

    // Replaces the key's pointer in the leaf by the operation's, if it is the expected one.
    fn exchange(&mut self, number: u32, page: Page, key: u64, expected: u64, pointer: u64)
        requires state { self.old.state ≡ State.Held number }
        requires job { self.old.job ≡ Job.Leaf }
        requires op { self.old.op ≡ Op.Exchange key expected pointer }
        requires level { page.level ≡ 0 }
        requires not_right { key ≤ page.high }
        ensures { SeesUnderLatch self.old number page self.new }
    {
        if self.finds_expected(number, &page, key, expected) {
            let mut changed = page;
            changed.swap(key, pointer);
            self.state = State::Change(number, changed, Some(expected));
        }
    }

    // Removes the key's entry from the leaf, if its pointer is the expected one.
    fn delete_exact(&mut self, number: u32, page: Page, key: u64, expected: u64)
        requires state { self.old.state ≡ State.Held number }
        requires job { self.old.job ≡ Job.Leaf }
        requires op { self.old.op ≡ Op.DeleteExact key expected }
        requires level { page.level ≡ 0 }
        requires not_right { key ≤ page.high }
        ensures { SeesUnderLatch self.old number page self.new }
    {
        if self.finds_expected(number, &page, key, expected) {
            let mut changed = page;
            changed.take(key);
            self.state = State::Change(number, changed, Some(expected));
        }
    }

    // Tells whether the leaf has the expected pointer for the key. If not, the operation answers what the leaf has, and leaves it.
    fn finds_expected(&mut self, number: u32, page: &Page, key: u64, expected: u64) -> bool
        requires state { self.old.state ≡ State.Held number }
        requires job { self.old.job ≡ Job.Leaf }
        requires op { Expects self.old.op key expected }
        requires not_right { key ≤ page.now.high }
        ensures found { OnTrue result (value_at key page.now.entries ≡ Some expected) }
        ensures unchanged { OnTrue result (self.new ≡ self.old) }
        ensures other { OnFalse result (SeesUnderLatch self.old number page.now self.new) }
    {
        match page.look(key) {
            Some(kept) if kept == expected => return true,
            Some(kept) => self.decide(State::Leave(number, Next::Finish), Answer::Exists(kept)),
            None => self.decide(State::Leave(number, Next::Finish), Answer::Absent),
        }
        false
    }

    // Posts the debt to the page unless its separator is present, or splits the page.
    fn post(&mut self, number: u32, page: Page, debt: Debt)
        requires state { self.old.state ≡ State.Held number }
        requires job { self.old.job ≡ Job.Parent debt }
        requires level { page.level ≡ debt.level + 1 }
        requires above { least_above page.floor ≤ debt.separator }
        requires not_right { debt.separator ≤ page.high }
        requires at_most_fan { length page.entries ≤ self.old.fan }
        ensures { SeesUnderLatch self.old number page self.new }
    {
        let mut changed = page;
        match changed.post(self.fan, debt.separator, debt.page) {
            Post::Done => self.state = State::Change(number, changed, None),
            Post::Already => self.state = State::Leave(number, Next::Finish),
            Post::Full => self.state = State::SplitNew(number, changed),
        }
    }
}
