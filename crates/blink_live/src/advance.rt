//! The operations that change the tree, for a thread that waits for nobody: each begins as a `Pending`, and takes some steps at
//! each call of `advance`.
ghost use Rattle.std.specs.Prelude.{◌≡◌, ◌↔◌, IfErr, IfOk, IsErrOf, Contains};
ghost use Rattle.blink_batch.specs.{answer_of, key_of, FitsWords};
ghost use Rattle.blink_batch.specs.declared.Op.TheVariants.{Delete, DeleteExact, Exchange, Insert, Replace};
ghost use Rattle.blink_machine.specs.{IsUpdate};
ghost use Rattle.blink_live.specs.Allowed.{changes_left, deletes_left, inserts_left};
ghost use Rattle.blink_live.specs.Handles.{IsChangedBy, IsPassOf, KnowsItsKeys, keys_of, share_of};
ghost use Rattle.blink_live.specs.Pendings.{HasBegun, IsPendingOf, IsWaiting, op_of, pass_of};

use crate::descent::Changed;
use crate::error::PassError;
use crate::live::{Live, Pass, Pending, UnderWay};
use crate::room::next_of;
use blink_batch::{Answer, Op};
use std::snapshot::Snapshot;

impl Live {
    /// Begins an insertion: what `insert` does, with no wait. The call reads the tree down to the key's leaf. It takes no memory,
    /// waits for nobody, and returns. The insertion goes on by `advance`.
    ///
    /// The call refuses as `insert` does, and hands back the pass, which is as it was. Then it reads nothing.
    pub fn begin_insert(
        &self,
        pass: Pass,
        key: u64,
        pointer: u64,
    ) -> Result<Pending, (Pass, PassError)>
        requires its_own { IsPassOf self.now pass }
        ensures begun { IfOk result (HasBegun self.now (Insert key pointer) pass) }
        ensures not_yours { IsErrOf result (pass, PassError.NotYours) ↔ ¬ Contains (keys_of pass) key }
        ensures spent { IsErrOf result (pass, PassError.Spent)
            ↔ (Contains (keys_of pass) key × (inserts_left pass.pages ≡ 0)) }
        ensures unchanged { IfErr result (λ refused. refused.0 ≡ pass) }
    {
        self.begin(pass, Op::Insert(key, pointer))
    }

    /// Begins a deletion: what `delete` does, with no wait. The call reads the tree down to the key's leaf. It takes no memory,
    /// waits for nobody, and returns. The deletion goes on by `advance`.
    ///
    /// The call refuses as `delete` does, and hands back the pass, which is as it was. Then it reads nothing.
    pub fn begin_delete(&self, pass: Pass, key: u64) -> Result<Pending, (Pass, PassError)>
        requires its_own { IsPassOf self.now pass }
        ensures begun { IfOk result (HasBegun self.now (Delete key) pass) }
        ensures not_yours { IsErrOf result (pass, PassError.NotYours) ↔ ¬ Contains (keys_of pass) key }
        ensures spent { IsErrOf result (pass, PassError.Spent)
            ↔ (Contains (keys_of pass) key × (deletes_left pass.pages pass.rows ≡ 0)) }
        ensures unchanged { IfErr result (λ refused. refused.0 ≡ pass) }
    {
        self.begin(pass, Op::Delete(key))
    }

    /// Begins a replacement: what `replace` does, with no wait. The call reads the tree down to the key's leaf. It takes no
    /// memory, waits for nobody, and returns. The replacement goes on by `advance`.
    ///
    /// The call refuses as `replace` does, and hands back the pass, which is as it was. Then it reads nothing.
    pub fn begin_replace(
        &self,
        pass: Pass,
        key: u64,
        pointer: u64,
    ) -> Result<Pending, (Pass, PassError)>
        requires its_own { IsPassOf self.now pass }
        ensures begun { IfOk result (HasBegun self.now (Replace key pointer) pass) }
        ensures not_yours { IsErrOf result (pass, PassError.NotYours) ↔ ¬ Contains (keys_of pass) key }
        ensures spent { IsErrOf result (pass, PassError.Spent)
            ↔ (Contains (keys_of pass) key × (deletes_left pass.pages pass.rows ≡ 0)) }
        ensures unchanged { IfErr result (λ refused. refused.0 ≡ pass) }
    {
        self.begin(pass, Op::Replace(key, pointer))
    }

    /// Begins an exchange: what `exchange` does, with no wait. The call reads the tree down to the key's leaf. It takes no
    /// memory, waits for nobody, and returns. The exchange goes on by `advance`.
    ///
    /// The call refuses as `exchange` does, and hands back the pass, which is as it was. Then it reads nothing.
    pub fn begin_exchange(
        &self,
        pass: Pass,
        key: u64,
        expected: u64,
        pointer: u64,
    ) -> Result<Pending, (Pass, PassError)>
        requires its_own { IsPassOf self.now pass }
        ensures begun { IfOk result (HasBegun self.now (Exchange key expected pointer) pass) }
        ensures not_yours { IsErrOf result (pass, PassError.NotYours) ↔ ¬ Contains (keys_of pass) key }
        ensures spent { IsErrOf result (pass, PassError.Spent)
            ↔ (Contains (keys_of pass) key × (deletes_left pass.pages pass.rows ≡ 0)) }
        ensures unchanged { IfErr result (λ refused. refused.0 ≡ pass) }
    {
        self.begin(pass, Op::Exchange(key, expected, pointer))
    }

    /// Begins a deletion of an expected pointer: what `delete_exact` does, with no wait. The call reads the tree down to the
    /// key's leaf. It takes no memory, waits for nobody, and returns. The deletion goes on by `advance`.
    ///
    /// The call refuses as `delete_exact` does, and hands back the pass, which is as it was. Then it reads nothing.
    pub fn begin_delete_exact(
        &self,
        pass: Pass,
        key: u64,
        expected: u64,
    ) -> Result<Pending, (Pass, PassError)>
        requires its_own { IsPassOf self.now pass }
        ensures begun { IfOk result (HasBegun self.now (DeleteExact key expected) pass) }
        ensures not_yours { IsErrOf result (pass, PassError.NotYours) ↔ ¬ Contains (keys_of pass) key }
        ensures spent { IsErrOf result (pass, PassError.Spent)
            ↔ (Contains (keys_of pass) key × (deletes_left pass.pages pass.rows ≡ 0)) }
        ensures unchanged { IfErr result (λ refused. refused.0 ≡ pass) }
    {
        self.begin(pass, Op::DeleteExact(key, expected))
    }

    /// Takes the operation's next steps. It returns the pass and the operation's answer once the operation has ended, exactly
    /// those of `insert`, `delete`, `replace`, `exchange` or `delete_exact`. It gives the operation back, whole and with its
    /// pass, after `tries` steps in vain, at least one: another pass had the latch of the page that it wants, or was about to
    /// make the root of a new level that it posts to. Then it holds no page's latch. The next call goes on from there. The call
    /// takes no memory, waits for nobody, and returns.
    pub fn advance(&self, pending: Pending, tries: u32) -> Result<(Pass, Answer), Pending>
        requires its_own { IsPendingOf self.now pending }
        ensures answer { IfOk result
            (λ ended. ended.1 ≡ answer_of (share_of (pass_of pending)) (op_of pending)) }
        ensures changed { IfOk result (λ ended. IsChangedBy (op_of pending) (pass_of pending) ended.0) }
        ensures knows { IfOk result (λ ended. KnowsItsKeys self.now ended.0) }
        ensures goes_on { IfErr result (HasBegun self.now (op_of pending) (pass_of pending)) }
        ensures waits { IfErr result (λ pending. IsWaiting pending.now.machine) }
    {
        let Pending { mut now, begun } = pending;
        match self.resume(&mut now.seat, &mut now.room, &now.machine, tries) {
            Changed::Ended(answer) => {
                let UnderWay {
                    seat,
                    keys,
                    rows,
                    pages,
                    machine: _rested,
                    room: _,
                } = now;
                let pass = Pass {
                    seat,
                    keys,
                    rows,
                    pages,
                };
                Ok((pass, answer))
            }
            Changed::Rests(resting) => {
                now.machine = resting;
                Err(Pending { now, begun })
            }
        }
    }

    /// Begins an operation that changes the tree, on one of the pass's keys: what `change` does, with no wait. It takes the next of
    /// the pass's rows and page numbers. The call reads the tree down to the key's leaf. It takes no memory, waits for nobody, and
    /// returns. The operation goes on by `advance`.
    ///
    /// The call refuses as `change` does, and hands back the pass, which is as it was. Then it reads nothing.
    pub fn begin(&self, pass: Pass, op: Op) -> Result<Pending, (Pass, PassError)>
        requires its_own { IsPassOf self.now pass }
        requires updates { IsUpdate op }
        requires fits { FitsWords op }
        ensures begun { IfOk result (HasBegun self.now op pass) }
        ensures not_yours { IsErrOf result (pass, PassError.NotYours)
            ↔ ¬ Contains (keys_of pass) (key_of op) }
        ensures spent { IsErrOf result (pass, PassError.Spent)
            ↔ (Contains (keys_of pass) (key_of op) × (changes_left op pass.pages pass.rows ≡ 0)) }
        ensures unchanged { IfErr result (λ refused. refused.0 ≡ pass) }
    {
        if let Err(refusal) = pass.accepts(op) {
            return Err((pass, refusal));
        }
        let begun = Snapshot::of(&pass);
        let Pass {
            mut seat,
            keys,
            mut rows,
            mut pages,
        } = pass;
        let room = next_of(op, &mut rows, &mut pages);
        let machine = self.set_out(&mut seat, &room, op);
        let now = UnderWay {
            seat,
            keys,
            rows,
            pages,
            machine,
            room,
        };
        Ok(Pending { now, begun })
    }
}
