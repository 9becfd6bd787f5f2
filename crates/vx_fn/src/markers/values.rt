// The markers of literals, casts and tests for null.
ghost use Rattle.vx_fn.specs.Markers as options;
ghost use Rattle.vx_fn.specs.declared.function.ScalarFnRef.TheVariants as of;

use crate::{EmptyOptions, ScalarFnRef, ScalarFnVTable};
use vx_dtype::DType;
use vx_value::Scalar;

/// A scalar, whatever the row.
#[derive(Clone, Copy)]
pub struct Literal;

impl ScalarFnVTable for Literal {
    type Options = Scalar;

    ghost bound = { of.Literal };

    ghost options = { options.literal_options };

    ghost is_of = { options.is_literal };

    ghost exactly = { options.literal_exactly };

    ghost told = { options.literal_told };

    fn bind(o: Scalar) -> ScalarFnRef {
        ScalarFnRef::Literal(o)
    }

    fn options_of(f: &ScalarFnRef) -> Option<&Scalar> {
        match f {
            ScalarFnRef::Literal(o) => Some(o),
            _ => None,
        }
    }
}

/// Whether the input is null.
#[derive(Clone, Copy)]
pub struct IsNull;

impl ScalarFnVTable for IsNull {
    type Options = EmptyOptions;

    ghost bound = { of.IsNull };

    ghost options = { options.is_null_options };

    ghost is_of = { options.is_is_null };

    ghost exactly = { options.is_null_exactly };

    ghost told = { options.is_null_told };

    fn bind(o: EmptyOptions) -> ScalarFnRef {
        ScalarFnRef::IsNull(o)
    }

    fn options_of(f: &ScalarFnRef) -> Option<&EmptyOptions> {
        match f {
            ScalarFnRef::IsNull(o) => Some(o),
            _ => None,
        }
    }
}

/// Whether the input isn't null.
#[derive(Clone, Copy)]
pub struct IsNotNull;

impl ScalarFnVTable for IsNotNull {
    type Options = EmptyOptions;

    ghost bound = { of.IsNotNull };

    ghost options = { options.is_not_null_options };

    ghost is_of = { options.is_is_not_null };

    ghost exactly = { options.is_not_null_exactly };

    ghost told = { options.is_not_null_told };

    fn bind(o: EmptyOptions) -> ScalarFnRef {
        ScalarFnRef::IsNotNull(o)
    }

    fn options_of(f: &ScalarFnRef) -> Option<&EmptyOptions> {
        match f {
            ScalarFnRef::IsNotNull(o) => Some(o),
            _ => None,
        }
    }
}

/// The input as a value of another type that differs in nullability alone.
#[derive(Clone, Copy)]
pub struct Cast;

impl ScalarFnVTable for Cast {
    type Options = DType;

    ghost bound = { of.Cast };

    ghost options = { options.cast_options };

    ghost is_of = { options.is_cast };

    ghost exactly = { options.cast_exactly };

    ghost told = { options.cast_told };

    fn bind(o: DType) -> ScalarFnRef {
        ScalarFnRef::Cast(o)
    }

    fn options_of(f: &ScalarFnRef) -> Option<&DType> {
        match f {
            ScalarFnRef::Cast(o) => Some(o),
            _ => None,
        }
    }
}
