// The markers of the operators.
ghost use Rattle.vx_fn.specs.Markers as options;
ghost use Rattle.vx_fn.specs.declared.function.ScalarFnRef.TheVariants as of;

use crate::{BetweenOptions, EmptyOptions, LikeOptions, Operator, ScalarFnRef, ScalarFnVTable};

/// An operator between two operands.
#[derive(Clone, Copy)]
pub struct Binary;

impl ScalarFnVTable for Binary {
    type Options = Operator;

    ghost bound = { of.Binary };

    ghost options = { options.binary_options };

    ghost is_of = { options.is_binary };

    ghost exactly = { options.binary_exactly };

    ghost told = { options.binary_told };

    fn bind(o: Operator) -> ScalarFnRef {
        ScalarFnRef::Binary(o)
    }

    fn options_of(f: &ScalarFnRef) -> Option<&Operator> {
        match f {
            ScalarFnRef::Binary(o) => Some(o),
            _ => None,
        }
    }
}

/// The other truth value.
#[derive(Clone, Copy)]
pub struct Not;

impl ScalarFnVTable for Not {
    type Options = EmptyOptions;

    ghost bound = { of.Not };

    ghost options = { options.not_options };

    ghost is_of = { options.is_not };

    ghost exactly = { options.not_exactly };

    ghost told = { options.not_told };

    fn bind(o: EmptyOptions) -> ScalarFnRef {
        ScalarFnRef::Not(o)
    }

    fn options_of(f: &ScalarFnRef) -> Option<&EmptyOptions> {
        match f {
            ScalarFnRef::Not(o) => Some(o),
            _ => None,
        }
    }
}

/// Whether a value lies between two bounds.
#[derive(Clone, Copy)]
pub struct Between;

impl ScalarFnVTable for Between {
    type Options = BetweenOptions;

    ghost bound = { of.Between };

    ghost options = { options.between_options };

    ghost is_of = { options.is_between };

    ghost exactly = { options.between_exactly };

    ghost told = { options.between_told };

    fn bind(o: BetweenOptions) -> ScalarFnRef {
        ScalarFnRef::Between(o)
    }

    fn options_of(f: &ScalarFnRef) -> Option<&BetweenOptions> {
        match f {
            ScalarFnRef::Between(o) => Some(o),
            _ => None,
        }
    }
}

/// Whether a text matches a pattern.
#[derive(Clone, Copy)]
pub struct Like;

impl ScalarFnVTable for Like {
    type Options = LikeOptions;

    ghost bound = { of.Like };

    ghost options = { options.like_options };

    ghost is_of = { options.is_like };

    ghost exactly = { options.like_exactly };

    ghost told = { options.like_told };

    fn bind(o: LikeOptions) -> ScalarFnRef {
        ScalarFnRef::Like(o)
    }

    fn options_of(f: &ScalarFnRef) -> Option<&LikeOptions> {
        match f {
            ScalarFnRef::Like(o) => Some(o),
            _ => None,
        }
    }
}
