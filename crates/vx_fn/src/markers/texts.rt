// The markers of functions of texts.
ghost use Rattle.vx_fn.specs.Markers as options;
ghost use Rattle.vx_fn.specs.declared.function.ScalarFnRef.TheVariants as of;

use crate::{EmptyOptions, ScalarFnRef, ScalarFnVTable};

/// Whether a text begins with another.
#[derive(Clone, Copy)]
pub struct StartsWith;

impl ScalarFnVTable for StartsWith {
    type Options = EmptyOptions;

    ghost bound = { of.StartsWith };

    ghost options = { options.starts_with_options };

    ghost is_of = { options.is_starts_with };

    ghost exactly = { options.starts_with_exactly };

    ghost told = { options.starts_with_told };

    fn bind(o: EmptyOptions) -> ScalarFnRef {
        ScalarFnRef::StartsWith(o)
    }

    fn options_of(f: &ScalarFnRef) -> Option<&EmptyOptions> {
        match f {
            ScalarFnRef::StartsWith(o) => Some(o),
            _ => None,
        }
    }
}

/// The number of a text's bytes.
#[derive(Clone, Copy)]
pub struct ByteLength;

impl ScalarFnVTable for ByteLength {
    type Options = EmptyOptions;

    ghost bound = { of.ByteLength };

    ghost options = { options.byte_length_options };

    ghost is_of = { options.is_byte_length };

    ghost exactly = { options.byte_length_exactly };

    ghost told = { options.byte_length_told };

    fn bind(o: EmptyOptions) -> ScalarFnRef {
        ScalarFnRef::ByteLength(o)
    }

    fn options_of(f: &ScalarFnRef) -> Option<&EmptyOptions> {
        match f {
            ScalarFnRef::ByteLength(o) => Some(o),
            _ => None,
        }
    }
}
