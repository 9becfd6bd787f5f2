// Literals that were written without a type.
ghost use Rattle.std.specs.Prelude.{◌≡◌, IfOk, None, option_map};
ghost use Rattle.vx_value.specs.Types.{is_null_datum, with_nullability};
ghost use Rattle.vx_value.specs.Views.{type_of};
ghost use Rattle.vx_source_types.specs.Literals.{plain_literal};
ghost use Rattle.vx_source_types.specs.ValueViews.{draft_of};
ghost use Rattle.vx_source_over.specs.Reading.{Settles};
ghost use Rattle.vx_source_over.specs.Settling.{literal_as, fitted, is_pointed, read_as, as_alone, written};
ghost use Rattle.vx_source_over.specs.Views.{literal_with};

use crate::OverError;
use std::alloc::{AllocError, Global};
use vx_dtype::{DType, Nullability};
use vx_source_types::{Draft, plain_literal, typed_literal};
use vx_value::{Scalar, Value};

// The literal of the scalar, which stands in these bytes: of the type that is wished, nullable where the value is null, and
// where none is wished as it is read alone.
#[inline(never)]
pub(crate) fn literal_as(
    alloc: Global,
    wish: Option<&DType>,
    scalar: &Scalar,
    bytes: (usize, usize),
) -> Result<Scalar, OverError>
    ensures { Settles literal_with result (literal_as (option_map (λ t. type_of t.now) wish.entry) scalar.now) }
{
    match wish {
        Some(dtype) => fitted(alloc, dtype, scalar, bytes),
        None => as_alone(written(alloc, scalar)?, bytes),
    }
}

// What was written of the scalar: a number with a point, or a value.
fn written(alloc: Global, scalar: &Scalar) -> Result<Draft, AllocError>
    ensures { IfOk result (λ d. draft_of d ≡ written scalar.now) }
{
    match scalar.value() {
        Value::Utf8(digits) if is_pointed(scalar) => Ok(Draft::Point(digits.clone()?)),
        value => Ok(Draft::Value(value.clone()?, Vec::new(alloc))),
    }
}

/// Whether the scalar of a literal without a type stands for a number with a point: it is its text then, as one of texts that
/// may be null.
pub fn is_pointed(scalar: &Scalar) -> bool
    ensures { result ≡ is_pointed (written scalar.now) }
{
    matches!(scalar.value(), Value::Utf8(_)) && scalar.dtype().is_nullable()
}

// What was written of the scalar as one of the type, nullable where its value is null, if it is one.
fn fitted(
    alloc: Global,
    wish: &DType,
    scalar: &Scalar,
    bytes: (usize, usize),
) -> Result<Scalar, OverError>
    ensures { Settles literal_with result (fitted (with_nullability (is_null_datum scalar.now.value) (type_of wish.now)) scalar.now) }
{
    match typed_literal(written(alloc, scalar)?, wished_type(wish, scalar)?) {
        Some(scalar) => Ok(scalar),
        None => misfit(wished_type(wish, scalar)?, scalar, bytes),
    }
}

// The type, nullable where the scalar's value is null.
fn wished_type(wish: &DType, scalar: &Scalar) -> Result<DType, AllocError>
    ensures { IfOk result (λ t. type_of t ≡ with_nullability (is_null_datum scalar.now.value) (type_of wish.now)) }
{
    let nullability = Nullability::of(scalar.value().is_null());
    Ok(wish.clone()?.with_nullability(nullability))
}

// Refuses the scalar, which is none of the type.
fn misfit(dtype: DType, scalar: &Scalar, bytes: (usize, usize)) -> Result<Scalar, OverError>
    ensures { Settles literal_with result (read_as (type_of dtype) scalar.now None) }
{
    let (start, end) = bytes;
    Err(OverError::Misfit {
        start,
        end,
        scalar: scalar.clone()?,
        dtype,
    })
}

// The literal that was written, as it is read alone.
fn as_alone(draft: Draft, bytes: (usize, usize)) -> Result<Scalar, OverError>
    ensures { Settles literal_with result (as_alone (plain_literal (draft_of draft))) }
{
    match plain_literal(draft) {
        Ok(scalar) => Ok(scalar),
        Err(expected) => Err(OverError::Unexpected {
            at: bytes.0,
            expected,
        }),
    }
}
