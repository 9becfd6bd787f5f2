// Rows of one buffer, which others may share.
ghost use Rattle.std.specs.Prelude.{◌≡◌, ◌≤◌, ◌<◌, ◌+◌, ◌==◌, IfOk, length, take, drop};

use std::alloc::{AllocError, Global};
use std::marker::Model;
use std::sync::Arc;

/// So many items of a buffer from one on. Clones and slices share the buffer.
#[derive(Debug)]
pub struct Part<T> {
    items: Arc<Vec<T>>,
    from: usize,
    len: usize,
}

impl<T: Drop> Drop for Part<T> {
    fn drop(self) {
        let Part {
            items,
            from: _,
            len: _,
        } = self;
        drop(items);
    }
}

impl<T> Model for Part<T> {
    ghost use Rattle.std.specs.Prelude.{◌≤◌, ◌+◌, List, length, take, drop};

    ghost Value = { List T };

    ghost view = { λ p. take p.len (drop p.from p.items.value.items) };

    ghost invariant = { λ p. p.from + p.len ≤ length p.items.value.items };
}

impl<T: Drop> Part<T> {
    /// All items of a buffer. Asks for one block, which its owners share.
    pub fn new(alloc: Global, items: Vec<T>) -> Result<Part<T>, AllocError>
        ensures { IfOk result (λ p. p ≡ items.items) }
    {
        let len = items.len();
        Ok(Part {
            items: Arc::new(alloc, items)?,
            from: 0,
            len,
        })
    }

    /// All items of a buffer that is shared already.
    pub fn from_shared(items: &Arc<Vec<T>>) -> Result<Part<T>, AllocError>
        ensures { IfOk result (λ p. p ≡ items.now.value.items) }
    {
        let len = items.len();
        Ok(Part {
            items: items.clone()?,
            from: 0,
            len,
        })
    }

    /// The items.
    #[inline]
    pub fn as_slice(&self) -> &[T]
        ensures { result.now ≡ self.now }
    {
        &self.items.as_slice()[self.from..self.from + self.len]
    }

    /// How many there are.
    pub fn len(&self) -> usize
        ensures { result ≡ length self.now }
    {
        self.len
    }

    /// So many of them from one on, in the same buffer. Asks items that are there.
    pub fn slice(&self, from: usize, len: usize) -> Result<Part<T>, AllocError>
        requires { from + len ≤ length self.now }
        ensures { IfOk result (λ p. p ≡ take len (drop from self.now)) }
    {
        Ok(Part {
            items: self.items.clone()?,
            from: self.from + from,
            len,
        })
    }
}

impl<T: Drop> Clone for Part<T> {
    ghost is_clone = { λ p copy. copy ≡ p };

    fn clone(&self) -> Result<Part<T>, AllocError> {
        Ok(Part {
            items: self.items.clone()?,
            from: self.from,
            len: self.len,
        })
    }
}
