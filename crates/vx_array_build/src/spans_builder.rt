// Bytes of rows, one row after another.
ghost use Rattle.std.specs.Prelude.{◌≡◌, ◌++◌, [], ◌∷◌, IfOk, true};
ghost use Rattle.std.specs.Str.{is_utf8};
ghost use Rattle.vx_array.specs.Kinds.{spans_in};

use std::alloc::{AllocError, Global};
use std::marker::Model;
use std::sync::Arc;
use vx_array::{Part, Spans};

/// Bytes of rows in one buffer, to which rows are added.
#[derive(Debug, Drop)]
pub struct SpansBuilder {
    offsets: Vec<usize>,
    bytes: Vec<u8>,
}

impl Model for SpansBuilder {
    ghost use Rattle.std.specs.Prelude.{ℕ, List};
    ghost use Rattle.vx_array_build.specs.Cuts.{AreCuts, cuts_in};

    ghost Value = { List (List ℕ) };

    ghost view = { λ b. cuts_in b.offsets.items b.bytes.items };

    ghost invariant = { λ b. AreCuts b.offsets.items b.bytes.items };
}

impl SpansBuilder {
    /// No row yet, and room for so many.
    pub fn with_capacity(alloc: Global, rows: usize) -> Result<SpansBuilder, AllocError>
        ensures { IfOk result (λ b. b ≡ []) }
    {
        let mut offsets = Vec::with_capacity(alloc, rows.saturating_add(1))?;
        offsets.push(0)?;
        Ok(SpansBuilder {
            offsets,
            bytes: Vec::new(alloc),
        })
    }

    /// The same rows and one more.
    pub fn push(self, row: &[u8]) -> Result<SpansBuilder, AllocError>
        ensures { IfOk result (λ b. b ≡ self ++ row.now ∷ []) }
    {
        let SpansBuilder {
            mut offsets,
            mut bytes,
        } = self;
        bytes.extend_from_slice(row)?;
        offsets.push(bytes.len())?;
        Ok(SpansBuilder { offsets, bytes })
    }

    /// The same rows and one more, which is a text.
    pub fn push_text(self, text: &str) -> Result<SpansBuilder, AllocError>
        ensures pushed { IfOk result (λ b. b ≡ self ++ text.now ∷ []) }
        ensures text { is_utf8 text.now ≡ true }
    {
        self.push(text.as_bytes())
    }

    /// The rows.
    pub fn finish(self, alloc: Global) -> Result<Spans, AllocError>
        ensures { IfOk result (λ s. spans_in s ≡ self) }
    {
        let SpansBuilder { offsets, bytes } = self;
        Ok(Spans::new(Part::new(alloc, offsets)?, Arc::new(alloc, bytes)?))
    }
}
