//! An operation that rests, in the room that it needs then.
ghost use Rattle.std.specs.Prelude.{◌≡◌, IfSome, reverse};
ghost use Rattle.blink_machine.specs.Resting.{IsResting, wants_leaf};

use super::{Job, Machine, State};
use crate::remembered::Remembered;
use blink_operation::{Answer, Op};
use std::marker::Model;

/// An operation that wants a page's latch, or looks for a level to post to. A `Machine` has room for a page; an operation that rests
/// has none. So it rests as this, in a fourth of the size.
#[derive(Drop)]
pub struct Resting {
    fan: u8,
    op: Op,
    job: Job,
    remembered: Remembered,
    // The page whose latch the operation wants; `None`, if it looks for a level.
    wants: Option<u32>,
    answer: Option<Answer>,
}

impl Model for Resting {
    ghost use Rattle.blink_machine.specs.Machine.{PlainMachine};

    ghost Value = { PlainMachine };

    ghost use Rattle.blink_machine.specs.RestingView.{plain};
    ghost use Rattle.blink_machine.specs.Kept.{IsMachine};

    ghost view = { plain };

    ghost invariant = { λ resting. IsMachine (plain resting) };
}

impl Machine {
    /// Returns the operation, which rests, in the room that it needs.
    pub fn rest(&self) -> Resting
        requires { IsResting self.now.state }
        ensures { result ≡ self.now }
    {
        let wants = match &self.state {
            State::Want(page) => Some(*page),
            _ => None,
        };
        Resting {
            fan: self.fan,
            op: self.op,
            job: self.job,
            remembered: self.remembered.copy(),
            wants,
            answer: self.answer,
        }
    }
}

impl Resting {
    /// Returns the operation.
    pub fn op(&self) -> Op
        ensures { result ≡ self.now.op }
    {
        self.op
    }

    /// Returns the leaf whose latch the operation wants, if its tree has this fan and it has decided nothing yet. What it remembers are
    /// the pages above the leaf then. `None`, if the operation posts.
    pub fn leaf(&self, fan: u8) -> Option<u32>
        ensures { IfSome result
            (λ leaf. self.now ≡ wants_leaf fan self.now.op self.now.remembered leaf) }
    {
        if self.fan != fan || self.answer.is_some() {
            return None;
        }
        match self.job {
            Job::Leaf => self.wants,
            Job::Parent(_) => None,
        }
    }

    /// Returns the pages that the operation remembers of its descent, the top level first.
    pub fn remembered(&self) -> &[u32]
        ensures { self.now.remembered ≡ reverse result.now }
    {
        self.remembered.pages()
    }

    /// Returns the operation with room for a page, so that it can go on.
    pub fn resume(&self) -> Machine
        ensures { result ≡ self.now }
    {
        Machine {
            fan: self.fan,
            op: self.op,
            job: self.job,
            remembered: self.remembered.copy(),
            state: match self.wants {
                Some(page) => State::Want(page),
                None => State::Posting,
            },
            answer: self.answer,
        }
    }
}
