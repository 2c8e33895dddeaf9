//! The plain map of one thread.
ghost use Rattle.std.specs.Prelude.{◌≡◌, ℕ, [], List, Option, Some, None, IsOk, IfOk, IfErr, OnOk, OnErr, MatchResult, take};
ghost use Rattle.blink_operation.specs.declared.entry.Entry.{Entry};
ghost use Rattle.blink_operation.specs.declared.operation.Op.TheVariants.{DeleteExact, Exchange};
ghost use Rattle.blink_batch.specs.Search.{IsPlaceOf, IsGapFor};
ghost use Rattle.blink_operation.specs.PlainMap.{IsAscending, pointer_of, removed, replaced};
ghost use Rattle.blink_operation.specs.Operation.{AddsEntry, StopsForMemory, answer_of, key_of, map_after, answers, map_after_all};

use blink_operation::{Answer, Entry, Op};
use std::alloc::{AllocError, Global};
use std::marker::Model;

/// The plain map of one thread: a sorted vector. Every index is measured by it.
#[derive(Debug, Drop)]
pub struct Plain {
    entries: Vec<Entry>,
}

impl Model for Plain {
    ghost Value = { List Entry };

    ghost view = { λ p. p.entries.items };

    ghost invariant = { λ p. IsAscending p.entries.items };
}

impl Plain {
    /// Makes the empty map. It takes no memory until the first insertion, and then from `alloc`.
    pub fn new(alloc: Global) -> Self
        ensures { result ≡ [] }
    {
        Plain {
            entries: Vec::new(alloc),
        }
    }

    /// Runs one operation, and returns its answer. Only an insertion of an absent key takes memory. If that is refused, the map
    /// is as it was.
    pub fn apply(&mut self, op: Op) -> Result<Answer, AllocError>
        ensures answer { IfOk result (λ answer. answer ≡ answer_of self.old op) }
        ensures map { OnOk result (self.new ≡ map_after self.old op) }
        ensures growth { OnErr result (AddsEntry self.old op) }
        ensures unchanged { OnErr result (self.new ≡ self.old) }
    {
        match self.place(op.key()) {
            Ok(at) => Ok(self.apply_at(at, op)),
            Err(at) => self.apply_in_gap(at, op),
        }
    }

    /// Runs operations, one after another, and returns the answer of each at its place. The call takes memory for the answers,
    /// before the first operation, and for each entry that an insertion adds. After an error the map is that of the operations
    /// run so far.
    pub fn run(&mut self, alloc: Global, ops: &[Op]) -> Result<Vec<Answer>, AllocError>
        ensures answers { IfOk result (λ given. given.items ≡ answers self.old ops.now) }
        ensures map { OnOk result (self.new ≡ map_after_all self.old ops.now) }
        ensures prefix { OnErr result
            ((done : ℕ) × (self.new ≡ map_after_all self.old (take done ops.now))) }
        ensures growth { OnErr result (StopsForMemory self.old ops.now self.new) }
    {
        let mut given = Vec::with_capacity(alloc, ops.len())?;
        for op in ops {
            let answer = self.apply(*op)?;
            given.push_reserved(answer);
        }
        Ok(given)
    }

    /// Returns the entries, in ascending order of their keys.
    pub fn entries(&self) -> &[Entry]
        ensures entries { result.now ≡ self.now }
        ensures ascending { IsAscending self.now }
    {
        &self.entries
    }

    // Runs an operation on a key that stands at the place.
    fn apply_at(&mut self, at: usize, op: Op) -> Answer
        requires place { IsPlaceOf self.old (key_of op) at }
        ensures answer { result ≡ answer_of self.old op }
        ensures map { self.new ≡ map_after self.old op }
    {
        match op {
            Op::Find(_) => Answer::Found(self.entries[at].pointer),
            Op::Insert(_, _) => Answer::Exists(self.entries[at].pointer),
            Op::Delete(key) => Answer::Removed(self.remove_at(at, key)),
            Op::Replace(key, pointer) => Answer::Replaced(self.replace_at(at, key, pointer)),
            Op::Exchange(key, expected, pointer) => self.exchange_at(at, key, expected, pointer),
            Op::DeleteExact(key, expected) => self.delete_exact_at(at, key, expected),
        }
    }

    // Runs an operation on a key that isn't there, and would go to the place.
    fn apply_in_gap(&mut self, at: usize, op: Op) -> Result<Answer, AllocError>
        requires gap { IsGapFor self.old (key_of op) at }
        ensures answer { IfOk result (λ answer. answer ≡ answer_of self.old op) }
        ensures map { OnOk result (self.new ≡ map_after self.old op) }
        ensures growth { OnErr result (AddsEntry self.old op) }
        ensures unchanged { OnErr result (self.new ≡ self.old) }
    {
        match op {
            Op::Insert(key, pointer) => {
                self.entries.insert(at, Entry { key, pointer })?;
                Ok(Answer::Inserted)
            }
            Op::Find(_) => Ok(Answer::Absent),
            Op::Delete(_) => Ok(Answer::Absent),
            Op::Replace(_, _) => Ok(Answer::Absent),
            Op::Exchange(_, _, _) => Ok(Answer::Absent),
            Op::DeleteExact(_, _) => Ok(Answer::Absent),
        }
    }

    // Removes the key, which stands at the place, and returns its pointer.
    fn remove_at(&mut self, at: usize, _key: u64) -> u64
        requires place { IsPlaceOf self.old _key at }
        ensures before { pointer_of self.old _key ≡ Some result }
        ensures map { self.new ≡ removed self.old _key }
    {
        self.entries.remove(at).pointer
    }

    // Removes the key, which stands at the place, if its pointer is the expected one.
    fn delete_exact_at(&mut self, at: usize, key: u64, expected: u64) -> Answer
        requires place { IsPlaceOf self.old key at }
        ensures answer { result ≡ answer_of self.old (DeleteExact key expected) }
        ensures map { self.new ≡ map_after self.old (DeleteExact key expected) }
    {
        let before = self.entries[at].pointer;
        if before != expected {
            return Answer::Exists(before);
        }
        Answer::Removed(self.remove_at(at, key))
    }

    // Replaces the pointer of the key, which stands at the place, and returns the one before.
    fn replace_at(&mut self, at: usize, key: u64, pointer: u64) -> u64
        requires place { IsPlaceOf self.old key at }
        ensures before { pointer_of self.old key ≡ Some result }
        ensures map { self.new ≡ replaced self.old key pointer }
    {
        let before = self.entries[at].pointer;
        self.entries[at] = Entry { key, pointer };
        before
    }

    // Replaces the pointer of the key, which stands at the place, if it is the expected one.
    fn exchange_at(&mut self, at: usize, key: u64, expected: u64, pointer: u64) -> Answer
        requires place { IsPlaceOf self.old key at }
        ensures answer { result ≡ answer_of self.old (Exchange key expected pointer) }
        ensures map { self.new ≡ map_after self.old (Exchange key expected pointer) }
    {
        let before = self.entries[at].pointer;
        if before != expected {
            return Answer::Exists(before);
        }
        Answer::Replaced(self.replace_at(at, key, pointer))
    }

    // The place of the key, or the place where it would go.
    fn place(&self, key: u64) -> Result<usize, usize>
        ensures found { IfOk result (IsPlaceOf self.now key) }
        ensures gap { IfErr result (IsGapFor self.now key) }
    {
        self.entries.binary_search_by_key(&key, |entry| entry.key)
    }
}
