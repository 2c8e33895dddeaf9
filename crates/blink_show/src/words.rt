//! The words of an operation under way.
ghost use Rattle.std.specs.Prelude.{◌≡◌, ◌++◌, OnOk, string_bytes};
ghost use Rattle.blink_show.specs.Words.{dotted, words_of_job, words_of_op, words_of_state};

use blink_batch::Op;
use blink_steps::{Job, Next, State};
use std::alloc::AllocError;
use std::fmt;
use std::fmt::Write as _;

// Where an operation goes from a page that it leaves.
#[derive(Clone, Copy)]
struct Onward(Next);

impl fmt::Display for Onward {
    ghost use Rattle.std.specs.Prelude.{Some};
    ghost use Rattle.blink_show.specs.Words.{words_of_next};

    ghost output = { λ onward. Some (words_of_next onward.0) };

    fn fmt<W: fmt::Write>(&self, f: &mut fmt::Formatter<W>) -> fmt::Result {
        match self.0 {
            Next::Finish => write!(f, " and ends"),
            Next::MoveRight(page) => write!(f, " for {page}"),
            Next::Post(_) => write!(f, " to post"),
        }
    }
}

/// Adds the words of a state.
pub(crate) fn push_state(text: &mut String, state: &State) -> Result<(), AllocError>
    ensures { OnOk result (string_bytes text.new ≡ string_bytes text.old ++ words_of_state state.now) }
{
    match state {
        State::Start => write!(text, "begins"),
        State::Going(page, _level) => write!(text, "going down, page {page}"),
        State::Want(page) => write!(text, "wants {page}"),
        State::Held(page) => write!(text, "holds {page}"),
        State::Change(page, _changed, _kept) => write!(text, "change, holds {page}"),
        State::SplitNew(page, _changed) => write!(text, "new page of a split, holds {page}"),
        State::SplitOld(page, _changed, _debt) => write!(text, "old page of a split, holds {page}"),
        State::AskPrime(page, _debt) => write!(text, "asks the prime block, holds {page}"),
        State::Root(page, _debt, _prime) => write!(text, "new root, holds {page}"),
        State::NewPrime(page, _debt, _root, _prime) => write!(text, "names the root, holds {page}"),
        State::Leave(page, next) => write!(text, "leaves {page}{}", Onward(*next)),
        State::Posting => write!(text, "posting, no page remembered"),
        State::Ended => write!(text, "ended"),
    }
}

/// Adds the words of a job.
pub(crate) fn push_job(text: &mut String, job: Job) -> Result<(), AllocError>
    ensures { OnOk result (string_bytes text.new ≡ string_bytes text.old ++ words_of_job job) }
{
    match job {
        Job::Leaf => write!(text, "-"),
        Job::Parent(debt) => write!(text, "{}:{}:{}", debt.level, debt.separator, debt.page),
    }
}

/// Adds page numbers, with a dot between each two, or a dash if there are no pages.
pub(crate) fn push_dotted(text: &mut String, pages: &[u32]) -> Result<(), AllocError>
    ensures { OnOk result (string_bytes text.new ≡ string_bytes text.old ++ dotted pages.now) }
{
    let Some((first, others)) = pages.split_first() else {
        return text.push_str("-");
    };
    write!(text, "{first}")?;
    for page in others {
        write!(text, ".{page}")?;
    }
    Ok(())
}

/// Adds an operation.
pub(crate) fn push_op(text: &mut String, op: Op) -> Result<(), AllocError>
    ensures { OnOk result (string_bytes text.new ≡ string_bytes text.old ++ words_of_op op) }
{
    match op {
        Op::Find(key) => write!(text, "find {key}"),
        Op::Insert(key, pointer) => write!(text, "insert {key} {pointer}"),
        Op::Delete(key) => write!(text, "delete {key}"),
        Op::Replace(key, pointer) => write!(text, "replace {key} {pointer}"),
        Op::Exchange(key, expected, pointer) => write!(text, "exchange {key} {expected} {pointer}"),
        Op::DeleteExact(key, expected) => write!(text, "delete_exact {key} {expected}"),
    }
}
