// Equality with nullability ignored, and unions.
ghost use Rattle.std.specs.Prelude.{◌≡◌, ◌||◌, IfOk, Ok, None, false, option_map};
ghost use Rattle.vx_dtype.specs.Returns.{ReturnsOrOom};
ghost use Rattle.vx_dtype.specs.Joins.{same_base, join, join_fields, union};
ghost use Rattle.vx_dtype.specs.Views.{type_of, fields_view, fields_of, admits_null};

use crate::dtype::struct_of;
use crate::equality::alike;
use crate::fields::field_count;
use crate::{DType, FieldName, Nullability, VortexResult};
use std::alloc::{AllocError, Global};
use std::sync::Arc;

impl DType {
    /// Whether the types differ in nullability alone, at every level.
    pub fn eq_ignore_nullability(&self, other: &DType) -> bool
        ensures { result ≡ same_base (type_of self.now) (type_of other.now) }
    {
        alike(self, other, false)
    }

    /// The union: nullable at each place where one of the two types is. None where they differ in more
    /// than nullability, and that takes no memory. Refuses with `OutOfMemory` (1) alone.
    pub fn union(&self, alloc: Global, other: &DType) -> VortexResult<Option<DType>>
        ensures union { ReturnsOrOom (option_map type_of) result (Ok (union (type_of self.now) (type_of other.now))) }
        ensures none { same_base (type_of self.now) (type_of other.now) ≡ false → result ≡ Ok None }
    {
        if alike(self, other, false) {
            Ok(Some(join(alloc, self, other)?))
        } else {
            Ok(None)
        }
    }
}

// Nullable where one of the two is.
fn either(n: Nullability, m: Nullability) -> Nullability
    ensures { admits_null result ≡ admits_null n || admits_null m }
{
    match n {
        Nullability::NonNullable => m,
        Nullability::Nullable => Nullability::Nullable,
    }
}

// The first type, nullable at each place where one of the two is.
#[cycle(join)]
fn join(alloc: Global, a: &DType, b: &DType) -> Result<DType, AllocError>
    ensures { IfOk result (λ t. type_of t ≡ join (type_of a.now) (type_of b.now)) }
{
    let n = either(a.nullability(), b.nullability());
    match a {
        DType::Bool(_) => Ok(DType::Bool(n)),
        DType::Primitive(p, _) => Ok(DType::Primitive(*p, n)),
        DType::Float(p, _) => Ok(DType::Float(*p, n)),
        DType::Decimal(decimal, _) => Ok(DType::Decimal(*decimal, n)),
        DType::Date(_) => Ok(DType::Date(n)),
        DType::Timestamp(timestamp, _) => Ok(DType::Timestamp(timestamp.clone()?, n)),
        DType::Utf8(_) => Ok(DType::Utf8(n)),
        DType::Binary(_) => Ok(DType::Binary(n)),
        DType::List(t, _) => match b {
            DType::List(u, _) => {
                let element = join(alloc, t.as_ref(), u.as_ref())?;
                Ok(DType::List(Arc::new(alloc, element)?, n))
            }
            _ => Ok(DType::List(t.clone()?, n)),
        },
        DType::FixedSizeList(t, size, _) => match b {
            DType::FixedSizeList(u, _, _) => {
                let element = join(alloc, t.as_ref(), u.as_ref())?;
                Ok(DType::FixedSizeList(Arc::new(alloc, element)?, *size, n))
            }
            _ => Ok(DType::FixedSizeList(t.clone()?, *size, n)),
        },
        DType::Struct(fields, _) => match b {
            DType::Struct(others, _) => {
                let types = join_fields(
                    alloc,
                    fields.names.as_slice(),
                    fields.types.as_slice(),
                    others.names.as_slice(),
                    others.types.as_slice(),
                )?;
                Ok(DType::Struct(struct_of(alloc, fields.names.clone()?, types)?, n))
            }
            _ => Ok(DType::Struct(fields.clone()?, n)),
        },
    }
}

// The types of the joined fields, which keep the first names.
#[cycle(join)]
fn join_fields(
    alloc: Global,
    names: &[FieldName],
    types: &[DType],
    others: &[FieldName],
    kinds: &[DType],
) -> Result<Vec<DType>, AllocError>
    ensures { IfOk result (λ made. fields_view names.now made.items ≡ join_fields (fields_view names.now types.now) (fields_view others.now kinds.now)) }
{
    let common = field_count(others, kinds);
    let mut made = Vec::new(alloc);
    for i in 0..field_count(names, types) {
        let t = &types[i];
        if i < common {
            made.push(join(alloc, t, &kinds[i])?)?;
        } else {
            made.push(t.clone()?)?;
        }
    }
    Ok(made)
}
