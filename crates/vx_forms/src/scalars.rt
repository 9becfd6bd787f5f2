// What a literal may be given as.
ghost use Rattle.std.specs.Prelude.{◌≡◌, Ok, IfOk, IfErr, map};
ghost use Rattle.vx_dtype.specs.declared.error.VortexError.TheVariants.{OutOfMemory};
ghost use Rattle.vx_dtype.specs.Returns.{ReturnsOrOom};
ghost use Rattle.vx_value.specs.Columns.{Constant, constant, struct_value};
ghost use Rattle.vx_forms.specs.Named.{beside, named};
ghost use Rattle.vx_forms.specs.Rows.{AreConstants, constant_types, row_type};
ghost use Rattle.vx_value.specs.Views.{type_of};

use crate::names::{IntoFieldName, unzip_named};
use crate::native::Native;
use std::alloc::Global;
use vx_dtype::{DType, FieldNames, Nullability, StructFields, VortexResult};
use vx_value::Scalar;

/// What a literal may be given as: a scalar, one that is lent, or a [`Native`] value.
pub trait IntoScalar: Drop + Sized {
    /// The value beside its type that this stands for.
    ghost constant: { Self → Constant };

    /// The scalar. Refuses with `OutOfMemory` (1) alone.
    fn into_scalar(self, alloc: Global) -> VortexResult<Scalar>
        ensures { ReturnsOrOom (λ s. s) result (Ok (constant self)) };
}

impl IntoScalar for Scalar {
    ghost constant = { λ s. s };

    fn into_scalar(self, _alloc: Global) -> VortexResult<Scalar> {
        Ok(self)
    }
}

impl IntoScalar for &Scalar {
    ghost constant = { λ s. s.now };

    fn into_scalar(self, _alloc: Global) -> VortexResult<Scalar> {
        Ok(self.clone()?)
    }
}

impl<T: Native> IntoScalar for T {
    ghost constant = { λ value. constant T.logical_type (T.datum value) };

    fn into_scalar(self, alloc: Global) -> VortexResult<Scalar> {
        let value = self.into_value(alloc)?;
        Scalar::try_new(T::dtype(), value)
    }
}

/// The scalar that this stands for, as `scalar(alloc, 5)`. Refuses with `OutOfMemory` (1) alone.
pub fn scalar<S: IntoScalar>(alloc: Global, value: S) -> VortexResult<Scalar>
    ensures { ReturnsOrOom (λ s. s) result (Ok (S.constant value)) }
{
    value.into_scalar(alloc)
}

/// The struct of these scalars under their names, of the type of their types. Refuses with
/// `OutOfMemory` (1) alone.
pub fn struct_row<N: IntoFieldName, const K: usize>(
    alloc: Global,
    fields: [(N, Scalar); K],
) -> VortexResult<Scalar>
    ensures { ReturnsOrOom (λ s. s) result (Ok (constant (row_type (named N.name fields) (beside fields)) (struct_value (beside fields)))) }
{
    let (names, scalars) = unzip_named(alloc, Vec::from_array(alloc, fields)?)?;
    let (types, scalars) = with_types(alloc, scalars)?;
    let names = FieldNames::new(alloc, names)?;
    let fields = StructFields::new(alloc, names, types)?;
    let dtype = DType::Struct(fields, Nullability::NonNullable);
    Scalar::struct_(alloc, dtype, scalars)
}

// The types of the scalars, of which each scalar's value is one, and the scalars.
fn with_types(alloc: Global, scalars: Vec<Scalar>) -> VortexResult<(Vec<DType>, Vec<Scalar>)>
    ensures types { IfOk result (λ parts. map type_of parts.0.items ≡ constant_types scalars.items) }
    ensures scalars { IfOk result (λ parts. parts.1.items ≡ scalars.items) }
    ensures fit { IfOk result (λ parts. AreConstants scalars.items) }
    ensures refusal { IfErr result (λ e. e ≡ OutOfMemory) }
{
    let mut types = Vec::with_capacity(alloc, scalars.len())?;
    let mut same = Vec::with_capacity(alloc, scalars.len())?;
    for scalar in scalars {
        let _value = scalar.value();
        types.push(scalar.dtype().clone()?)?;
        same.push(scalar)?;
    }
    Ok((types, same))
}
