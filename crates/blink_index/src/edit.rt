//! Changes of a tree at rest in place.
ghost use Rattle.std.specs.Prelude.{◌≡◌, ◌+◌, ◌≤◌, length, IfOk, IsOkUnless, OnErr};
ghost use Rattle.blink_operation.specs.{answer_at};
ghost use Rattle.blink_operation.specs.declared.Answer.TheVariants.{Exists, Inserted};
ghost use Rattle.blink_operation.specs.declared.Op.TheVariants.{Delete, Insert, Replace};
ghost use Rattle.blink_page.specs.{ExceedsPageLimit};
ghost use Rattle.blink_page.specs.declared.limits.TheConstants.{MAX_NEW_PAGES_PER_INSERT};
ghost use Rattle.blink_page.specs.Put.{IfPresent, OnDone, OnFull, UnlessDone};
ghost use Rattle.blink_rest.specs.{IsMapOf};
ghost use Rattle.blink_index.specs.Edit.{IsEdited, SplitsLeaf};
ghost use Rattle.blink_entries.specs.Index.{map_of};

use crate::drive::run;
use crate::error::EditError;
use blink_entries::leaf_number;
use blink_operation::Op;
use blink_page::{MAX_NEW_PAGES_PER_INSERT, Put};
use blink_rest::Rest;

/// Removes the key's entry from its leaf, and returns its pointer. The call takes no memory. It adds one to `emptied`, if the leaf
/// had no other entry.
pub(crate) fn take(rest: &mut Rest, key: u64, emptied: &mut u32) -> Option<u64>
    ensures edited { IsEdited rest.old rest.new (Delete key) (answer_at (Delete key) result) }
    ensures page_count { length rest.new.pages ≡ length rest.old.pages }
{
    let number = leaf_number(rest.store(), key);
    let store = &mut rest.store;
    let leaf = store.read(number);
    if leaf.items.len() == 1 && leaf.look(key).is_some() {
        *emptied = emptied.saturating_add(1);
    }
    store.take(number, key)
}

/// Replaces the key's pointer in its leaf, and returns the one before. The call takes no memory.
pub(crate) fn swap(rest: &mut Rest, key: u64, pointer: u64) -> Option<u64>
    ensures edited { IsEdited rest.old rest.new (Replace key pointer)
        (answer_at (Replace key pointer) result) }
    ensures page_count { length rest.new.pages ≡ length rest.old.pages }
{
    let number = leaf_number(rest.store(), key);
    let store = &mut rest.store;
    store.swap(number, key, pointer)
}

/// Adds an entry to the key's leaf, unless the key is present or the leaf is full. The call takes no memory. It takes one from
/// `emptied`, if the leaf was empty.
pub(crate) fn put(rest: &mut Rest, key: u64, pointer: u64, emptied: &mut u32) -> Put
    ensures added { OnDone result (IsEdited rest.old rest.new (Insert key pointer) Inserted) }
    ensures found { IfPresent result
        (λ kept. IsEdited rest.old rest.new (Insert key pointer) (Exists kept)) }
    ensures full { OnFull result (SplitsLeaf rest.old key) }
    ensures unchanged { UnlessDone result (rest.new ≡ rest.old) }
    ensures page_count { length rest.new.pages ≡ length rest.old.pages }
{
    let number = leaf_number(rest.store(), key);
    let store = &mut rest.store;
    // A key finds room in an empty leaf, and isn't there yet.
    if store.read(number).items.is_empty() {
        *emptied = emptied.saturating_sub(1);
    }
    store.put(number, key, pointer)
}

/// Adds an entry to the key's leaf, which is full. So the leaf is split, and the split is posted, and so on up to a new root. The
/// memory for all new pages is asked for first. A refusal changes nothing.
pub(crate) fn split(rest: &mut Rest, key: u64, pointer: u64) -> Result<(), EditError>
    requires splits { SplitsLeaf rest.old key }
    requires numbers { ¬ ExceedsPageLimit (length rest.old.pages) 1 }
    ensures added { IfOk result
        (λ _. IsEdited rest.old rest.new (Insert key pointer) Inserted) }
    ensures few_pages { IfOk result
        (λ _. length rest.new.pages ≤ length rest.old.pages + MAX_NEW_PAGES_PER_INSERT) }
    ensures refused { IsOkUnless result EditError.OutOfMemory }
    ensures unchanged { OnErr result (rest.new ≡ rest.old) }
    ensures kept { IsMapOf rest.new (map_of rest.new) }
{
    let store = &mut rest.store;
    if store
        .pages
        .reserve(MAX_NEW_PAGES_PER_INSERT as usize)
        .is_err()
    {
        return Err(EditError::OutOfMemory);
    }
    run(
        store.fan,
        &mut store.prime,
        &mut store.pages,
        Op::Insert(key, pointer),
    );
    Ok(())
}
