//! What the box of a reader's handle holds: an owner of an index that is only read.
ghost use Rattle.std.specs.Prelude.{◌≡◌, IfErr, IfOk, IsFalse, IsTrue};
ghost use Rattle.blink_handles.specs.Readers.{HasSwapped, index_in};

use blink_index::Index;
use blink_page::MIN_FAN;
use std::alloc::{AllocError, Global};
use std::mem;
use std::sync::Arc;

/// A reader of an index, with room to take the index back. So the last reader gives it back without a request for memory.
#[derive(Drop)]
pub struct ReaderOwner {
    /// The index.
    pub shared: Arc<Index>,
    /// A box for the index, with one without an entry in it meanwhile.
    pub room: Box<Index>,
}

impl ReaderOwner {
    /// Makes an index one that is only read, and its box the first reader's room. A refusal gives the index back.
    pub fn share(alloc: Global, index: Box<Index>) -> Result<Box<ReaderOwner>, Box<Index>>
        ensures shared { IfOk result (λ reader. index_in reader.value ≡ index.value) }
        ensures unchanged { IfErr result (λ back. back.value ≡ index.value) }
    {
        let Ok(shared) = shared_place(alloc) else {
            return Err(index);
        };
        let owner = ReaderOwner {
            shared,
            room: index,
        };
        match Box::new(alloc, owner) {
            Ok(mut reader) => {
                if reader.swap() {
                    Ok(reader)
                } else {
                    Err(Box::into_inner(reader).into_room())
                }
            }
            Err(failed) => Err(failed.value.into_room()),
        }
    }

    /// One more reader of the same index.
    pub fn join(&self, alloc: Global) -> Result<Box<ReaderOwner>, AllocError>
        ensures { IfOk result (λ other. index_in other.value ≡ index_in self.now) }
    {
        let room = Box::new(alloc, place(alloc)?)?;
        let shared = Arc::try_clone(&self.shared)?;
        Ok(Box::new(alloc, ReaderOwner { shared, room })?)
    }

    /// Gives the index back, if the reader is its last. A refusal gives the reader back.
    pub fn unshare(mut reader: Box<ReaderOwner>) -> Result<Box<Index>, Box<ReaderOwner>>
        ensures given { IfOk result (λ index. index.value ≡ index_in reader.value) }
        ensures unchanged { IfErr result (λ back. back.value ≡ reader.value) }
    {
        if reader.swap() {
            Ok(Box::into_inner(reader).into_room())
        } else {
            Err(reader)
        }
    }

    /// The index that it reads.
    pub fn index(&self) -> &Index
        ensures { result.now ≡ index_in self.now }
    {
        &self.shared
    }

    // Swaps the index that is read and that in the room, if there is no other reader.
    fn swap(&mut self) -> bool
        ensures swapped { IsTrue result → HasSwapped self.old self.new }
        ensures unchanged { IsFalse result → self.new ≡ self.old }
    {
        match Arc::get_mut(&mut self.shared) {
            Some(index) => {
                mem::swap(index, &mut *self.room);
                true
            }
            None => false,
        }
    }

    // The room, with the index in it.
    fn into_room(self) -> Box<Index>
        ensures { result ≡ self.room }
    {
        let ReaderOwner { shared, room } = self;
        drop(shared);
        room
    }
}

// An index without an entry.
fn place(alloc: Global) -> Result<Index, AllocError> {
    match Index::new(alloc, MIN_FAN) {
        Ok(index) => Ok(index),
        Err(_) => Err(AllocError),
    }
}

// The same, where readers may share it.
fn shared_place(alloc: Global) -> Result<Arc<Index>, AllocError> {
    Ok(Arc::new(alloc, place(alloc)?)?)
}
