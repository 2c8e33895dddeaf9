//! One operation on a tree, over any pages: the state that it is in, and the step that it needs next.

ghost use Rattle.std.specs.Prelude.{◌≡◌, ◌↔◌, IsTrue, reverse};
ghost use Rattle.blink_page.specs.{IsFan};
ghost use Rattle.blink_machine.specs.Machine.{fresh, need_at, target, value_of_job, answered};
ghost use Rattle.blink_machine.specs.Kept.{KeptAt};

mod done;
mod resting;
mod see;
mod write;

use crate::remembered::Remembered;
use blink_operation::{Answer, Op};
use blink_page::{Page, Prime};
pub use resting::Resting;
use std::fmt;
use std::marker::Model;

/// What a split owes: the separator between its two pages, and the number of the new page. The operation has to post both to the
/// level above.
#[derive(Clone, Copy, Debug, PartialEq, Eq)]
pub struct Debt {
    /// The level of the two pages.
    pub level: u8,
    /// The high key of the old page, which has the lower half.
    pub separator: u64,
    /// The number of the new page.
    pub page: u32,
}

/// What an operation works on: its own key, on a leaf, or the debt of a split below, on the level above that split.
#[derive(Clone, Copy, Debug, PartialEq, Eq)]
pub enum Job {
    /// The operation's own key.
    Leaf,
    /// This debt, from a split of the operation's own.
    Parent(Debt),
}

/// Where an operation goes from a page after it releases the page's latch.
#[derive(Clone, Copy, PartialEq, Eq)]
pub enum Next {
    /// The operation ends.
    Finish,
    /// To the page that the right link names.
    MoveRight(u32),
    /// To the level above, to post this debt.
    Post(Debt),
}

/// The state of an operation: the states of the table, each with what the operation has to know there. The first number of each
/// is the page that the operation is about to read, latch, write or leave.
#[derive(Drop)]
pub enum State {
    /// Before the read of the prime block that begins the operation.
    Start,
    /// In its descent, with the page that it reads next, and that page's level.
    Going(u32, u8),
    /// Wants the page's latch.
    Want(u32),
    /// Holds the page's latch; next it reads the page again.
    Held(u32),
    /// Writes the page with its change. The last part is the pointer that a leaf had for the key before.
    Change(u32, Page, Option<u64>),
    /// Writes the upper half of the page, which it has read, as a new page.
    SplitNew(u32, Page),
    /// Writes the lower half in place of the page. The lower half links to the new page of the debt.
    SplitOld(u32, Page, Debt),
    /// Has split the page; next it asks the prime block whether that page was the root.
    AskPrime(u32, Debt),
    /// Writes a new root over the two halves of the old one. It has read this prime block.
    Root(u32, Debt, Prime),
    /// Writes the prime block with the new root added. The third part is the root's number.
    NewPrime(u32, Debt, u32, Prime),
    /// Releases the page's latch.
    Leave(u32, Next),
    /// Has to post to a level of which it remembers no page; next it reads the prime block for the leftmost page.
    Posting,
    /// Has ended.
    Ended,
}

impl State {
    // Goes on to another page. A state has room for a whole page, so a descent writes only what differs.
    fn go(&mut self, page: u32, level: u8)
        ensures { self.new ≡ State.Going page level }
    {
        if let State::Going(at, of) = self {
            *at = page;
            *of = level;
        } else {
            *self = State::Going(page, level);
        }
    }
}

/// The next step of an operation.
#[derive(Clone, Copy, Debug, PartialEq, Eq)]
pub enum Need {
    /// Read the prime block, and hand it to `saw_prime`.
    ReadPrime,
    /// Read the page of this number, and hand it to `saw_page`.
    ReadPage(u32),
    /// Get this page's latch, or wait for it.
    Latch(u32),
    /// Write `page_out` as a new page, under a number that no page has.
    WriteNew,
    /// Replace the page of this number by `page_out`.
    WritePage(u32),
    /// Replace the prime block by `prime_out`.
    WritePrime,
    /// Release this page's latch.
    Unlatch(u32),
    /// The operation has ended.
    End,
}

/// One operation on a tree whose pages have at most `fan` entries, over whatever memory holds the pages. Whoever runs it takes
/// the step that `need` returns. Then the runner reports the step: by `saw_prime` or `saw_page` after a read, by `done` after
/// any other step. The machine takes no memory. The law `step_keeps` states that a tree admits each of its steps, whatever other
/// operations do in between. The table of states is that of Lehman and Yao 1981, with deletions, replacements and a prime block.
#[derive(Drop)]
pub struct Machine {
    fan: u8,
    op: Op,
    job: Job,
    // The page that the operation read last on each inner level.
    remembered: Remembered,
    state: State,
    // `Some` from the deciding step on.
    answer: Option<Answer>,
}

impl Model for Machine {
    ghost use Rattle.blink_machine.specs.Machine.{PlainMachine};

    ghost Value = { PlainMachine };

    ghost use Rattle.blink_machine.specs.MachineView.{plain};
    ghost use Rattle.blink_machine.specs.Kept.{IsMachine};

    ghost view = { plain };

    ghost invariant = { λ m. IsMachine (plain m) };
}

/// Writes the operation and its answer. A state may hold a page, which would fill a screen.
impl fmt::Debug for Machine {
    fn fmt<W: fmt::Write>(&self, f: &mut fmt::Formatter<W>) -> fmt::Result {
        write!(f, "{:?} with {:?}", self.op, self.answer)
    }
}

impl Machine {
    /// Makes the operation in its state before the read of the prime block that begins it. `fan` is 4 to 32.
    pub fn new(op: Op, fan: u8) -> Machine
        requires { IsFan fan }
        ensures { result ≡ fresh fan op }
    {
        Machine {
            fan,
            op,
            job: Job::Leaf,
            remembered: Remembered::new(),
            state: State::Start,
            answer: None,
        }
    }

    /// Returns the step that comes next.
    pub fn need(&self) -> Need
        ensures { result ≡ need_at self.now.state }
    {
        match &self.state {
            State::Start | State::AskPrime(..) | State::Posting => Need::ReadPrime,
            State::Going(page, _) | State::Held(page) => Need::ReadPage(*page),
            State::Want(page) => Need::Latch(*page),
            State::Change(page, ..) | State::SplitOld(page, ..) => Need::WritePage(*page),
            State::SplitNew(..) | State::Root(..) => Need::WriteNew,
            State::NewPrime(..) => Need::WritePrime,
            State::Leave(page, _) => Need::Unlatch(*page),
            State::Ended => Need::End,
        }
    }

    /// Returns the operation's answer: `Some` from its deciding step on.
    pub fn answer(&self) -> Option<Answer>
        ensures { result ≡ self.now.answer }
    {
        self.answer
    }

    /// Returns whether the operation has ended, so that nothing is left to do.
    pub fn ended(&self) -> bool
        ensures { IsTrue result ↔ self.now.state ≡ State.Ended }
    {
        matches!(self.state, State::Ended)
    }

    /// Returns the key that the operation's job is about.
    pub fn target(&self) -> u64
        ensures { result ≡ target self.now }
    {
        match self.job {
            Job::Leaf => self.op.key(),
            Job::Parent(debt) => debt.separator,
        }
    }

    /// Returns the operation's state.
    pub fn state(&self) -> &State
        ensures { result.now ≡ self.now.state }
    {
        &self.state
    }

    /// Returns the operation's job.
    pub fn job(&self) -> Job
        ensures { result ≡ self.now.job }
    {
        self.job
    }

    /// Returns the pages that the operation remembers of its descent, the top level first. There is one for each level above its
    /// job's to which it has not gone back.
    pub fn remembered(&self) -> &[u32]
        ensures { self.now.remembered ≡ reverse result.now }
    {
        self.remembered.pages()
    }

    // The value that the job adds to a page.
    fn value(&self) -> u64
        ensures { result ≡ value_of_job self.now.op self.now.job }
    {
        match self.job {
            Job::Parent(debt) => u64::from(debt.page),
            Job::Leaf => self.op.pointer(),
        }
    }

    // Decides: sets the answer, and goes on.
    fn decide(&mut self, state: State, answer: Answer)
        requires { KeptAt self.old state }
        ensures { self.new ≡ answered self.old state answer }
    {
        self.state = state;
        self.answer = Some(answer);
    }
}
