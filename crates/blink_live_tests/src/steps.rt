//! What a pass does, and what each call has to give.
ghost use Rattle.blink_live.specs.{IsPassOf};

use blink_batch::{Answer, Op};
use blink_live::{Live, Pass, PassError};
use std::process::Abort;
use std::sync::Wait;

// A call with a pass, and what it has to give.
#[derive(Clone, Copy)]
pub(crate) enum Step {
    Call(Op, Result<Answer, PassError>),
    // An exchange of the expected pointer of a key for another one, by the call that takes the operation.
    Change(u64, u64, u64, Result<Answer, PassError>),
    Glance(u64, Option<u64>),
    // A glance at the first number gives a pointer from the second to the third.
    GlanceBetween(u64, u64, u64),
}

fn call<R: Wait>(rt: &R, live: &Live, pass: &mut Pass, op: Op) -> Result<Answer, PassError>
    requires { IsPassOf live.now pass.old }
    ensures { IsPassOf live.now pass.new }
{
    match op {
        Op::Find(key) => live.find(pass, key),
        Op::Insert(key, pointer) => live.insert(rt, pass, key, pointer),
        Op::Delete(key) => live.delete(rt, pass, key),
        Op::Replace(key, pointer) => live.replace(rt, pass, key, pointer),
        Op::Exchange(key, expected, pointer) => live.exchange(rt, pass, key, expected, pointer),
        Op::DeleteExact(key, expected) => live.delete_exact(rt, pass, key, expected),
    }
}

// A glance, without what it promises of the key.
pub(crate) fn look(live: &Live, pass: &mut Pass, key: u64) -> Option<u64>
    requires { IsPassOf live.now pass.old }
    ensures { IsPassOf live.now pass.new }
{
    live.glance(pass, key)
}

pub(crate) fn take<R: Wait + Abort>(rt: &R, live: &Live, pass: &mut Pass, step: Step)
    requires { IsPassOf live.now pass.old }
    ensures { IsPassOf live.now pass.new }
{
    match step {
        Step::Call(op, expected) => {
            let given = call(rt, live, pass, op);
            assert!(rt; given == expected, "{op:?} gave {given:?}");
        }
        Step::Change(key, old, new, expected) => {
            let given = live.change(rt, pass, Op::Exchange(key, old, new));
            assert!(rt; given == expected, "a change of {key} gave {given:?}");
        }
        Step::Glance(key, expected) => {
            let given = look(live, pass, key);
            assert!(rt; given == expected, "a glance at {key} gave {given:?}");
        }
        Step::GlanceBetween(key, least, greatest) => {
            let given = look(live, pass, key);
            let fits = matches!(given, Some(pointer) if least <= pointer && pointer <= greatest);
            assert!(rt; fits, "a glance at {key} gave {given:?}");
        }
    }
}

// Takes the steps in their order.
pub(crate) fn take_all<R: Wait + Abort>(rt: &R, live: &Live, pass: &mut Pass, steps: &[Step])
    requires { IsPassOf live.now pass.old }
    ensures { IsPassOf live.now pass.new }
{
    for &step in steps {
        take(rt, live, pass, step);
    }
}
