// Types by their texts, and names.
ghost use Rattle.std.specs.Prelude.{◌≡◌};
ghost use Rattle.vx_value.specs.Types.{is_nullable};
ghost use Rattle.vx_value.specs.Views.{admits_null, type_of};

use crate::times::repeated_fields;
use crate::trees::NESTING;
use crate::unread::Unread;
use std::alloc::Global;
use vx_source::parse_type_with;
use vx_tree::{DType, FieldName, FieldNames, Nullability, PType, VortexResult};

/// The type of the source text. Before a field of a struct `7*` says seven times, and `#` in it is the
/// number of the time, from 0: `{2*c#=i32}` is `{c0=i32,c1=i32}`.
pub fn dtype(alloc: Global, text: &str) -> Result<DType, Unread> {
    if !text.contains('*') {
        return Ok(parse_type_with(alloc, text, NESTING)?);
    }
    let text = repeated_fields(alloc, text)?;
    Ok(parse_type_with(alloc, text.as_str(), NESTING)?)
}

/// The names of the list, with such a mark between them; none of an empty list.
pub fn names(alloc: Global, list: &str, mark: char) -> VortexResult<FieldNames> {
    if list.is_empty() {
        return FieldNames::empty(alloc);
    }
    let mut names = Vec::new(alloc);
    for name in list.split(mark) {
        names.push(FieldName::new(alloc, name)?)?;
    }
    FieldNames::new(alloc, names)
}

pub fn i32_type(nullability: Nullability) -> DType
    ensures { is_nullable (type_of result) ≡ admits_null nullability }
{
    DType::Primitive(PType::I32, nullability)
}
