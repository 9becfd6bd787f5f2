// Patterns that are read once, for many texts.
ghost use Rattle.std.specs.Prelude.{◌≡◌, Ok};
ghost use Rattle.vx_dtype.specs.Returns.{ReturnsOrOom};
ghost use Rattle.vx_fn.specs.Values.{is_like};
ghost use Rattle.vx_eval_like.specs.Patterns.{compiled, accepts};

use crate::parts::{Part, parts_of};
use crate::walk::spells;
use std::alloc::Global;
use std::marker::Model;
use vx_dtype::VortexResult;

/// A pattern of LIKE: `%` stands for any text, `_` for one character, and a backslash makes the
/// next character stand for itself.
#[derive(Drop)]
pub struct Pattern {
    parts: Vec<Part>,
    ignore_case: bool,
}

impl Model for Pattern {
    ghost use Rattle.vx_eval_like.specs.Patterns.{Compiled, parts_view};

    ghost Value = { Compiled };

    ghost view = { λ p. record { parts = parts_view p.parts.items; ignore_case = p.ignore_case } };
}

impl Pattern {
    /// Reads the pattern. A backslash at its end stands for itself. Where the case is ignored,
    /// the ASCII capitals of the pattern and of each text are made small first. Refuses with
    /// `OutOfMemory` (1) alone.
    pub fn compile(alloc: Global, pattern: &str, case_insensitive: bool) -> VortexResult<Pattern>
        ensures { ReturnsOrOom (λ read. read) result (Ok (compiled case_insensitive pattern.now)) }
    {
        Ok(Pattern {
            parts: parts_of(alloc, pattern, case_insensitive)?,
            ignore_case: case_insensitive,
        })
    }

    /// Whether the pattern spells the whole text, where a character is a Unicode scalar value.
    /// Takes no memory, and at most the pattern's length times the text's in time.
    pub fn matches(&self, text: &str) -> bool
        ensures { result ≡ accepts self.now text.now }
    {
        spells(self.parts.as_slice(), text, self.ignore_case)
    }
}

/// Whether the text is like the pattern. Refuses with `OutOfMemory` (1) alone.
pub fn is_like(alloc: Global, text: &str, pattern: &str, ignore_case: bool) -> VortexResult<bool>
    ensures { ReturnsOrOom (λ b. b) result (Ok (is_like ignore_case text.now pattern.now)) }
{
    Ok(Pattern::compile(alloc, pattern, ignore_case)?.matches(text))
}
