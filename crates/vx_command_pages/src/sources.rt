// Bound trees as source text.
ghost use Rattle.std.specs.Prelude.{◌≡◌, IfOk, string_bytes};
ghost use Rattle.vx_value.specs.Views.{type_of};
ghost use Rattle.vx_tree.specs.Trees.{unbound};
ghost use Rattle.vx_tree.specs.Views.{bound_of};
ghost use Rattle.vx_source_types.specs.TypeTexts.{type_source};
ghost use Rattle.vx_source_writer.specs.SourceTexts.{source};

use std::alloc::{AllocError, Global};
use vx_source::{SourceText, TypeText};
use vx_tree::{BoundExpression, DType};

/// The source text of the tree without its types.
pub(crate) fn source_text(alloc: Global, tree: &BoundExpression) -> Result<String, AllocError>
    ensures { IfOk result (λ text. string_bytes text ≡ source (unbound (bound_of tree.now))) }
{
    format!(in alloc; "{}", SourceText(tree))
}

/// The type as source text.
pub(crate) fn type_text(alloc: Global, dtype: &DType) -> Result<String, AllocError>
    ensures { IfOk result (λ text. string_bytes text ≡ type_source (type_of dtype.now)) }
{
    format!(in alloc; "{}", TypeText(dtype))
}
