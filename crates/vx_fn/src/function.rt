// The functions.
ghost use Rattle.std.specs.Prelude.{◌≡◌, ℕ, option_map};
ghost use Rattle.vx_fn.specs.Views.{function_of};

use crate::{
    BetweenOptions, CaseWhenOptions, EmptyOptions, FieldSelection, LikeOptions, Operator,
    PackOptions, ScalarFnVTable,
};
use std::alloc::AllocError;
use vx_dtype::{DType, FieldName};
use vx_value::Scalar;

/// A function with its options. A clone shares what its source points to, and equal functions hash
/// alike.
#[derive(Debug)]
pub enum ScalarFnRef {
    /// The value beside the first condition that is true, else the ELSE value, else null.
    CaseWhen(CaseWhenOptions),
    /// The first field of that name.
    GetItem(FieldName),
    /// The scalar, whatever the row.
    Literal(Scalar),
    /// A struct of the children.
    Pack(PackOptions),
    /// A struct of some of the child's fields.
    Select(FieldSelection),
    /// The input, or the fill value where the input is null.
    FillNull(EmptyOptions),
    /// One value where the mask is true, and else the other.
    Zip(EmptyOptions),
    /// The operator between two operands.
    Binary(Operator),
    /// The other truth value.
    Not(EmptyOptions),
    /// Whether a value lies between two bounds.
    Between(BetweenOptions),
    /// Whether a text matches a pattern.
    Like(LikeOptions),
    /// Whether the input is null.
    IsNull(EmptyOptions),
    /// Whether the input isn't null.
    IsNotNull(EmptyOptions),
    /// The input where the mask is true, and else null.
    Mask(EmptyOptions),
    /// The input as a value of that type, which differs in nullability alone.
    Cast(DType),
    /// Whether a text begins with another.
    StartsWith(EmptyOptions),
    /// The number of a text's bytes.
    ByteLength(EmptyOptions),
    /// Whether a value is among a list's elements, by SQL's rule for nulls: null of a null list or a
    /// null value, and where the value is no element, but one is null.
    ListContains(EmptyOptions),
}

impl Drop for ScalarFnRef {
    fn drop(self) {
        match self {
            ScalarFnRef::GetItem(name) => drop(name),
            ScalarFnRef::Literal(scalar) => drop(scalar),
            ScalarFnRef::Pack(options) => drop(options),
            ScalarFnRef::Select(selection) => drop(selection),
            ScalarFnRef::Cast(dtype) => drop(dtype),
            ScalarFnRef::CaseWhen(_)
            | ScalarFnRef::FillNull(_)
            | ScalarFnRef::Zip(_)
            | ScalarFnRef::Binary(_)
            | ScalarFnRef::Not(_)
            | ScalarFnRef::Between(_)
            | ScalarFnRef::Like(_)
            | ScalarFnRef::IsNull(_)
            | ScalarFnRef::IsNotNull(_)
            | ScalarFnRef::Mask(_)
            | ScalarFnRef::StartsWith(_)
            | ScalarFnRef::ByteLength(_)
            | ScalarFnRef::ListContains(_) => {}
        }
    }
}

impl Clone for ScalarFnRef {
    ghost is_clone = { λ f copy. function_of copy ≡ function_of f };

    fn clone(&self) -> Result<ScalarFnRef, AllocError> {
        match self {
            ScalarFnRef::CaseWhen(o) => Ok(ScalarFnRef::CaseWhen(*o)),
            ScalarFnRef::GetItem(name) => Ok(ScalarFnRef::GetItem(name.clone()?)),
            ScalarFnRef::Literal(scalar) => Ok(ScalarFnRef::Literal(scalar.clone()?)),
            ScalarFnRef::Pack(o) => Ok(ScalarFnRef::Pack(o.clone()?)),
            ScalarFnRef::Select(selection) => Ok(ScalarFnRef::Select(selection.clone()?)),
            ScalarFnRef::FillNull(o) => Ok(ScalarFnRef::FillNull(*o)),
            ScalarFnRef::Zip(o) => Ok(ScalarFnRef::Zip(*o)),
            ScalarFnRef::Binary(operator) => Ok(ScalarFnRef::Binary(*operator)),
            ScalarFnRef::Not(o) => Ok(ScalarFnRef::Not(*o)),
            ScalarFnRef::Between(o) => Ok(ScalarFnRef::Between(*o)),
            ScalarFnRef::Like(o) => Ok(ScalarFnRef::Like(*o)),
            ScalarFnRef::IsNull(o) => Ok(ScalarFnRef::IsNull(*o)),
            ScalarFnRef::IsNotNull(o) => Ok(ScalarFnRef::IsNotNull(*o)),
            ScalarFnRef::Mask(o) => Ok(ScalarFnRef::Mask(*o)),
            ScalarFnRef::Cast(dtype) => Ok(ScalarFnRef::Cast(dtype.clone()?)),
            ScalarFnRef::StartsWith(o) => Ok(ScalarFnRef::StartsWith(*o)),
            ScalarFnRef::ByteLength(o) => Ok(ScalarFnRef::ByteLength(*o)),
            ScalarFnRef::ListContains(o) => Ok(ScalarFnRef::ListContains(*o)),
        }
    }
}

impl ScalarFnRef {
    ghost use Rattle.vx_fn.specs.Functions.{id_of};

    /// The name of the function, as `vortex.get_item`.
    pub fn id(&self) -> &'static str
        ensures { result.now ≡ id_of (function_of self.now) }
    {
        match self {
            ScalarFnRef::CaseWhen(_) => "vortex.case_when",
            ScalarFnRef::GetItem(_) => "vortex.get_item",
            ScalarFnRef::Literal(_) => "vortex.literal",
            ScalarFnRef::Pack(_) => "vortex.pack",
            ScalarFnRef::Select(_) => "vortex.select",
            ScalarFnRef::FillNull(_) => "vortex.fill_null",
            ScalarFnRef::Zip(_) => "vortex.zip",
            ScalarFnRef::Binary(_) => "vortex.binary",
            ScalarFnRef::Not(_) => "vortex.not",
            ScalarFnRef::Between(_) => "vortex.between",
            ScalarFnRef::Like(_) => "vortex.like",
            ScalarFnRef::IsNull(_) => "vortex.is_null",
            ScalarFnRef::IsNotNull(_) => "vortex.is_not_null",
            ScalarFnRef::Mask(_) => "vortex.mask",
            ScalarFnRef::Cast(_) => "vortex.cast",
            ScalarFnRef::StartsWith(_) => "vortex.starts_with",
            ScalarFnRef::ByteLength(_) => "vortex.byte_length",
            ScalarFnRef::ListContains(_) => "vortex.list_contains",
        }
    }

    /// Whether the function is the marker's.
    pub fn is<V: ScalarFnVTable>(&self) -> bool
        ensures { result ≡ V.is_of (function_of self.now) }
    {
        V::options_of(self).is_some()
    }

    /// The options, if the function is the marker's.
    pub fn as_opt<V: ScalarFnVTable>(&self) -> Option<&V::Options>
        ensures { option_map (λ o. o.now) result ≡ V.options self.now }
    {
        V::options_of(self)
    }
}
