//! A writer that keeps what it was given before.
ghost use Rattle.std.specs.Prelude.{◌≡◌};
ghost use Rattle.index_main.specs.Appending.{BeginsWith};

use std::io::{self, Write};
use std::marker::{Brand, PhantomData};

/// The bytes that a writer held when its run began. Each run picks them.
pub trait Before {
    ghost use Rattle.std.specs.Prelude.{ℕ, List, Option};

    ghost before: { Option (List ℕ) };
}

impl Before for Brand {
    ghost use Rattle.std.specs.Prelude.{None};

    ghost before = { None };
}

/// A writer whose bytes begin with those that it held before, where these are known. A buffer in front of it forgets that, so
/// the type guarantees it.
#[derive(Drop)]
pub struct Appending<B: Before, W: Write + Drop> {
    pub(crate) inner: W,
    of: PhantomData<B>,
    ghost begins: { BeginsWith B.before (W.contents inner) },
}

impl<B: Before, W: Write + Drop> Appending<B, W> {
    /// Makes a writer from one that holds the bytes that were picked.
    pub fn new(inner: W) -> Appending<B, W>
        requires picked { B.before ≡ W.contents inner }
        ensures same { result.inner ≡ inner }
    {
        Appending {
            inner,
            of: PhantomData,
        }
    }
}

impl<B: Before, W: Write + Drop> Write for Appending<B, W> {
    ghost contents = { λ writer. W.contents writer.inner };

    fn write(&mut self, bytes: &[u8]) -> io::Result<usize> {
        self.inner.write(bytes)
    }

    fn flush(&mut self) -> io::Result<()> {
        self.inner.flush()
    }
}
