// What is known of a cell's type by some texts.
ghost use Rattle.std.specs.Prelude.{◌≡◌, ◌==◌, ◌||◌, IfOk, false, length, if◌then◌else◌};
ghost use Rattle.vx_dtype.specs.Types.{atomic, ty};
ghost use Rattle.vx_dtype.specs.Views.{type_of};
ghost use Rattle.vx_data.specs.declared.kind.Kind.TheVariants.{Unknown};
ghost use Rattle.vx_data.specs.Kinds.{cell_kind, kind_type, together};

use crate::kind::Kind;
use crate::kinds::Kinds;
use std::alloc::AllocError;
use vx_dtype::{DType, Nullability};

/// What the texts of a cell have in common.
#[derive(Clone, Copy, Debug, PartialEq, Eq)]
pub(crate) struct CellGuess {
    empty: bool,
    kind: Kind,
}

impl CellGuess {
    /// No text was seen.
    pub(crate) fn new() -> CellGuess
        ensures empty { result.empty ≡ false }
        ensures kind { result.kind ≡ Unknown }
    {
        CellGuess {
            empty: false,
            kind: Kind::Unknown,
        }
    }

    /// The same, where that text was seen, too.
    pub(crate) fn and(self, kinds: &Kinds, text: &str) -> CellGuess
        ensures empty { result.empty ≡ (length text.now == 0 || self.empty) }
        ensures kind { result.kind ≡ (if length text.now == 0 then self.kind else together self.kind (cell_kind kinds.now.decimals text.now)) }
    {
        let CellGuess { empty, kind } = self;
        if text.is_empty() {
            return CellGuess { empty: true, kind };
        }
        let kind = match kind {
            Kind::Text => Kind::Text,
            kind => kind.and(kinds.of_cell(text)),
        };
        CellGuess { empty, kind }
    }

    /// The narrowest type of the texts: nullable where one was empty, `utf8` where no other was seen.
    pub(crate) fn dtype(self, kinds: &Kinds) -> Result<DType, AllocError>
        ensures { IfOk result (λ t. type_of t ≡ ty (atomic (kind_type self.kind)) self.empty) }
    {
        kinds.dtype(self.kind, Nullability::of(self.empty))
    }
}
