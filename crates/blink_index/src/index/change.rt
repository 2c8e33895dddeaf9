//! Changes of an index in place, one operation at a time.
ghost use Rattle.std.specs.Prelude.{◌≡◌, ◌+◌, ◌≤◌, ◌↔◌, [], ◌∷◌, length, take, vec_capacity, IfErr, IfNone, IfOk, IfSome, IsErrOf, OnErr};
ghost use Rattle.blink_operation.specs.{answer_of, answers, map_after, map_after_all};
ghost use Rattle.blink_operation.specs.declared.Op.TheVariants.{Delete, DeleteExact, Exchange, Insert, Replace};
ghost use Rattle.blink_page.specs.{ExceedsPageLimit};
ghost use Rattle.blink_page.specs.declared.limits.TheConstants.{MAX_NEW_PAGES_PER_INSERT};
ghost use Rattle.blink_rest.specs.{IsMapOf};
ghost use Rattle.blink_index.specs.Edit.{HasPagesFor, IsEditRefusal, SplitsLeaf, StopsEdits};
ghost use Rattle.blink_entries.specs.Index.{map_of};

use super::Index;
use crate::edit::{put, split, swap, take};
use crate::error::EditError;
use blink_operation::{Answer, Op};
use blink_page::{Put, exceeds_page_limit};
use std::alloc::Global;

/// What became of operations on an index: the answers of those that were carried out, which are the first, and the refusal of
/// the next, if one was refused.
#[derive(Debug, Drop)]
pub struct Applied {
    pub answers: Vec<Answer>,
    pub refusal: Option<EditError>,
}

impl Index {
    /// Adds a key with its pointer, in place, unless the key is present, and answers as a batch of that one insertion does:
    /// `Inserted`, or `Exists` with the pointer that the key has.
    ///
    /// The call refuses with `TooLarge`, exactly where the one insertion might need more page numbers than exist. It asks for
    /// memory only where it splits the key's leaf, and then for the room of 22 pages before it changes anything; it refuses with
    /// `OutOfMemory`, if that was refused. A refusal leaves the index as it was.
    pub fn insert(&mut self, key: u64, pointer: u64) -> Result<Answer, EditError>
        ensures answer { IfOk result
            (λ answer. answer ≡ answer_of (map_of self.old) (Insert key pointer)) }
        ensures map { IfOk result
            (λ _. map_of self.new ≡ map_after (map_of self.old) (Insert key pointer)) }
        ensures kept { IsMapOf self.new (map_of self.new) }
        ensures same_fan { self.new.fan ≡ self.old.fan }
        ensures few_pages { length self.new.pages
            ≤ length self.old.pages + MAX_NEW_PAGES_PER_INSERT }
        ensures too_large { IsErrOf result EditError.TooLarge
            ↔ ExceedsPageLimit (length self.old.pages) 1 }
        ensures memory { IsErrOf result EditError.OutOfMemory → SplitsLeaf self.old key }
        ensures unchanged { OnErr result (self.new ≡ self.old) }
    {
        if exceeds_page_limit(self.rest().store().pages(), 1) {
            return Err(EditError::TooLarge);
        }
        match put(&mut self.rest, key, pointer, &mut self.emptied) {
            Put::Done => {
                self.count += 1;
                Ok(Answer::Inserted)
            }
            Put::Present(kept) => Ok(Answer::Exists(kept)),
            Put::Full => match split(&mut self.rest, key, pointer) {
                Ok(()) => {
                    self.count += 1;
                    Ok(Answer::Inserted)
                }
                Err(refusal) => Err(refusal),
            },
        }
    }

    /// Removes a key with its pointer, in place, and answers as a batch of that one deletion does: `Removed` with the pointer,
    /// or `Absent`. The call takes no memory, and reads one page for each level. A leaf that becomes empty stays a page of the
    /// tree, until the index is compacted, as `delete_and_compact` does.
    pub fn delete(&mut self, key: u64) -> Answer
        ensures answer { result ≡ answer_of (map_of self.old) (Delete key) }
        ensures map { map_of self.new ≡ map_after (map_of self.old) (Delete key) }
        ensures kept { IsMapOf self.new (map_of self.new) }
        ensures same_fan { self.new.fan ≡ self.old.fan }
        ensures same_page_count { length self.new.pages ≡ length self.old.pages }
    {
        // Called for the proof: a tree at rest has its entries as a map.
        let _rest = self.rest();
        let kept = take(&mut self.rest, key, &mut self.emptied);
        self.count -= usize::from(kept.is_some());
        Op::Delete(key).answer(kept)
    }

    /// Replaces the pointer of a key, in place, and answers as a batch of that one replacement does: `Replaced` with the pointer
    /// before, or `Absent`. The call takes no memory, and reads one page for each level.
    pub fn replace(&mut self, key: u64, pointer: u64) -> Answer
        ensures answer { result ≡ answer_of (map_of self.old) (Replace key pointer) }
        ensures map { map_of self.new ≡ map_after (map_of self.old) (Replace key pointer) }
        ensures kept { IsMapOf self.new (map_of self.new) }
        ensures same_fan { self.new.fan ≡ self.old.fan }
        ensures same_page_count { length self.new.pages ≡ length self.old.pages }
    {
        let before = swap(&mut self.rest, key, pointer);
        Op::Replace(key, pointer).answer(before)
    }

    /// Replaces the pointer of a key, in place, if it is the expected one, and answers as a batch of that one exchange does:
    /// `Replaced` with the expected pointer, `Exists` with the other pointer that the key has, or `Absent`. The call takes no
    /// memory. It reads one page for each level, and reads them again where it replaces.
    pub fn exchange(&mut self, key: u64, expected: u64, pointer: u64) -> Answer
        ensures answer { result ≡ answer_of (map_of self.old) (Exchange key expected pointer) }
        ensures map { map_of self.new
            ≡ map_after (map_of self.old) (Exchange key expected pointer) }
        ensures kept { IsMapOf self.new (map_of self.new) }
        ensures same_fan { self.new.fan ≡ self.old.fan }
        ensures same_page_count { length self.new.pages ≡ length self.old.pages }
    {
        // Called for the proof: a tree at rest has its entries as a map.
        let _rest = self.rest();
        match self.find(key) {
            Some(kept) if kept == expected => self.replace(key, pointer),
            Some(kept) => Answer::Exists(kept),
            None => Answer::Absent,
        }
    }

    /// Removes a key with its pointer, in place, if the pointer is the expected one, and answers as a batch of that one operation
    /// does: `Removed` with the expected pointer, `Exists` with the other pointer that the key has, or `Absent`. The call takes
    /// no memory. It reads one page for each level, and reads them again where it removes. A leaf that becomes empty stays a page
    /// of the tree, as after `delete`.
    pub fn delete_exact(&mut self, key: u64, expected: u64) -> Answer
        ensures answer { result ≡ answer_of (map_of self.old) (DeleteExact key expected) }
        ensures map { map_of self.new ≡ map_after (map_of self.old) (DeleteExact key expected) }
        ensures kept { IsMapOf self.new (map_of self.new) }
        ensures same_fan { self.new.fan ≡ self.old.fan }
        ensures same_page_count { length self.new.pages ≡ length self.old.pages }
    {
        // Called for the proof: a tree at rest has its entries as a map.
        let _rest = self.rest();
        match self.find(key) {
            Some(kept) if kept == expected => self.delete(key),
            Some(kept) => Answer::Exists(kept),
            None => Answer::Absent,
        }
    }

    /// Carries one operation out in place, as `find`, `insert`, `delete`, `replace`, `exchange` and `delete_exact` do. Only an
    /// insertion is refused.
    pub fn edit(&mut self, op: Op) -> Result<Answer, EditError>
        ensures answer { IfOk result (λ answer. answer ≡ answer_of (map_of self.old) op) }
        ensures map { IfOk result (λ _. map_of self.new ≡ map_after (map_of self.old) op) }
        ensures kept { IsMapOf self.new (map_of self.new) }
        ensures same_fan { self.new.fan ≡ self.old.fan }
        ensures few_pages { HasPagesFor (op ∷ []) self.old self.new }
        ensures refused { IfErr result (IsEditRefusal self.old op) }
        ensures unchanged { OnErr result (self.new ≡ self.old) }
    {
        // Called for the proof: a tree at rest has its entries as a map.
        let _rest = self.rest();
        match op {
            Op::Find(key) => Ok(op.answer(self.find(key))),
            Op::Insert(key, pointer) => self.insert(key, pointer),
            Op::Delete(key) => Ok(self.delete(key)),
            Op::Replace(key, pointer) => Ok(self.replace(key, pointer)),
            Op::Exchange(key, expected, pointer) => Ok(self.exchange(key, expected, pointer)),
            Op::DeleteExact(key, expected) => Ok(self.delete_exact(key, expected)),
        }
    }

    /// Carries operations out in place, one after another, and returns their answers, up to the first that is refused. The
    /// operations before it stay carried out, and so many answers are there.
    ///
    /// The call asks for the memory of all answers before the first operation, and is refused with no answer if that is
    /// refused. Whatever the refusal, the index is at rest. Where none is refused, the call ends as `compact_if_sparse` does.
    pub fn apply(&mut self, alloc: Global, ops: &[Op]) -> Applied
        ensures answers { result.answers.items
            ≡ answers (map_of self.old) (take (length result.answers.items) ops.now) }
        ensures map { map_of self.new
            ≡ map_after_all (map_of self.old) (take (length result.answers.items) ops.now) }
        ensures kept { IsMapOf self.new (map_of self.new) }
        ensures same_fan { self.new.fan ≡ self.old.fan }
        ensures few_pages { HasPagesFor (take (length result.answers.items) ops.now) self.old self.new }
        ensures all { IfNone result.refusal (length result.answers.items ≡ length ops.now) }
        ensures refused { IfSome result.refusal
            (StopsEdits self.new ops.now (length result.answers.items)) }
    {
        let mut answers = Vec::new(alloc);
        // Called for the proof: a tree at rest has its entries as a map.
        let _rest = self.rest();
        let refusal = match answers.reserve(ops.len()) {
            Ok(()) => self.apply_each(alloc, ops, &mut answers),
            Err(_) => Some(EditError::OutOfMemory),
        };
        Applied { answers, refusal }
    }

    // Carries operations out up to the first that is refused, and adds their answers, for which there is room. If none is refused, it
    // compacts the index where that is sparse then.
    fn apply_each(
        &mut self,
        alloc: Global,
        ops: &[Op],
        given: &mut Vec<Answer>,
    ) -> Option<EditError>
        requires none { given.old.items ≡ [] }
        requires room { length ops.now ≤ vec_capacity given.old }
        ensures answers { given.new.items
            ≡ answers (map_of self.old) (take (length given.new.items) ops.now) }
        ensures map { map_of self.new
            ≡ map_after_all (map_of self.old) (take (length given.new.items) ops.now) }
        ensures kept { IsMapOf self.new (map_of self.new) }
        ensures same_fan { self.new.fan ≡ self.old.fan }
        ensures few_pages { HasPagesFor (take (length given.new.items) ops.now) self.old self.new }
        ensures all { IfNone result (length given.new.items ≡ length ops.now) }
        ensures refused { IfSome result
            (StopsEdits self.new ops.now (length given.new.items)) }
    {
        // Called for the proof: a tree at rest has its entries as a map.
        let _rest = self.rest();
        for op in ops {
            match self.edit(*op) {
                Ok(answer) => given.push_reserved(answer),
                Err(refusal) => return Some(refusal),
            }
        }
        self.compact_if_sparse(alloc);
        None
    }
}
