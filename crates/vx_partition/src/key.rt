// Annotations that name partitions.
ghost use Rattle.std.specs.Prelude.{◌≡◌, ℕ, List, Ok, Some, refl, true};
ghost use Rattle.vx_value.specs.Returns.{ReturnsOrOom};
ghost use Rattle.vx_value.specs.Types.{Name};
ghost use Rattle.vx_partition.specs.Keys.{same_bytes};
ghost use Rattle.vx_partition_laws.specs.Partitions.{piece_name};

use std::alloc::Global;
use std::fmt::Display;
use vx_rewrite_analysis::Annotation;
use vx_tree::{FieldName, VortexResult};

/// An annotation that names a partition. Equal keys have one text, which [`Display`] writes byte
/// for byte, and one field name.
pub trait PartitionKey: Annotation + Display {
    /// The key's text, with which the names of its pieces begin.
    ghost text: { Self → List ℕ };

    /// The field name of its partition.
    ghost name: { Self → Name };

    /// The field name of the key's partition. Refuses with `OutOfMemory` (1) alone.
    fn field_name(&self, alloc: Global) -> VortexResult<FieldName>
        ensures { ReturnsOrOom (λ name. name) result (Ok (name self.now)) };

    /// It prints as its text.
    ghost shows: { (a : Self) → Self.output a ≡ Some (text a) };

    ghost same_text: { (a b : Self) → Self.eq a b ≡ true → text a ≡ text b };

    ghost same_name: { (a b : Self) → Self.eq a b ≡ true → name a ≡ name b };
}

/// A field's name is its own text, and names its partition.
impl PartitionKey for FieldName {
    ghost text = { λ name. name };

    ghost name = { λ name. name };

    ghost shows = { λ name. refl };

    ghost same_text = { same_bytes };

    ghost same_name = { same_bytes };

    fn field_name(&self, _alloc: Global) -> VortexResult<FieldName> {
        Ok(self.clone()?)
    }
}

// The name of the key's piece of that index.
pub(crate) fn piece_name<A: PartitionKey>(
    alloc: Global,
    key: &A,
    index: usize,
) -> VortexResult<FieldName>
    ensures { ReturnsOrOom (λ name. name) result (Ok (piece_name (A.text key.now) index)) }
{
    let text = format!(in alloc; "{key}_{index}")?;
    FieldName::new(alloc, text.as_str())
}
