//! What a run begins with.
use std::marker::Brand;

/// What a run begins with: its tree, its batch and its lanes. Each call that runs a batch picks them.
///
/// Nothing but the facts of its type is known of what comes out of a lock. So what a run begins with is part of its book's type.
pub trait Origin {
    ghost use Rattle.std.specs.Prelude.{List};
    ghost use Rattle.blink_batch.specs.declared.Op.{Op};
    ghost use Rattle.blink_batch.specs.{Assignment};
    ghost use Rattle.blink_store.specs.{PlainStore};

    ghost start: { PlainStore };

    ghost ops: { List Op };

    ghost assignment: { Assignment };
}

impl Origin for Brand {
    ghost use Rattle.std.specs.Prelude.{[]};
    ghost use Rattle.blink_store.specs.{new_store};

    ghost start = { new_store 0 };

    ghost ops = { [] };

    ghost assignment = { record { workers = 0; lanes = [] } };
}
