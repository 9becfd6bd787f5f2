// The markers of the functions that choose between values.
ghost use Rattle.std.specs.Prelude.{◌≡◌};
ghost use Rattle.vx_value.specs.Views.{type_of};
ghost use Rattle.vx_fn.specs.Functions.{is_atomic};
ghost use Rattle.vx_fn.specs.Markers as options;
ghost use Rattle.vx_fn.specs.declared.function.ScalarFnRef.TheVariants as of;

use crate::typing::is_atomic;
use crate::{CaseWhenOptions, EmptyOptions, ScalarFnRef, ScalarFnVTable};
use vx_dtype::DType;

/// The value beside the first condition that is true, else the ELSE value, else null.
#[derive(Clone, Copy)]
pub struct CaseWhen;

impl ScalarFnVTable for CaseWhen {
    type Options = CaseWhenOptions;

    ghost bound = { of.CaseWhen };

    ghost options = { options.case_when_options };

    ghost is_of = { options.is_case_when };

    ghost exactly = { options.case_when_exactly };

    ghost told = { options.case_when_told };

    fn bind(o: CaseWhenOptions) -> ScalarFnRef {
        ScalarFnRef::CaseWhen(o)
    }

    fn options_of(f: &ScalarFnRef) -> Option<&CaseWhenOptions> {
        match f {
            ScalarFnRef::CaseWhen(o) => Some(o),
            _ => None,
        }
    }
}

/// The input, or the fill value where the input is null.
#[derive(Clone, Copy)]
pub struct FillNull;

impl ScalarFnVTable for FillNull {
    type Options = EmptyOptions;

    ghost bound = { of.FillNull };

    ghost options = { options.fill_null_options };

    ghost is_of = { options.is_fill_null };

    ghost exactly = { options.fill_null_exactly };

    ghost told = { options.fill_null_told };

    fn bind(o: EmptyOptions) -> ScalarFnRef {
        ScalarFnRef::FillNull(o)
    }

    fn options_of(f: &ScalarFnRef) -> Option<&EmptyOptions> {
        match f {
            ScalarFnRef::FillNull(o) => Some(o),
            _ => None,
        }
    }
}

impl FillNull {
    /// Whether a fill of this type is ever evaluated: whether it is `Bool`, `Primitive`, `Utf8` or `Binary`.
    pub fn supports_dtype(dtype: &DType) -> bool
        ensures { result ≡ is_atomic (type_of dtype.now) }
    {
        is_atomic(dtype)
    }
}

/// One value where the mask is true, and else the other.
#[derive(Clone, Copy)]
pub struct Zip;

impl ScalarFnVTable for Zip {
    type Options = EmptyOptions;

    ghost bound = { of.Zip };

    ghost options = { options.zip_options };

    ghost is_of = { options.is_zip };

    ghost exactly = { options.zip_exactly };

    ghost told = { options.zip_told };

    fn bind(o: EmptyOptions) -> ScalarFnRef {
        ScalarFnRef::Zip(o)
    }

    fn options_of(f: &ScalarFnRef) -> Option<&EmptyOptions> {
        match f {
            ScalarFnRef::Zip(o) => Some(o),
            _ => None,
        }
    }
}

/// The input where the mask is true, and else null.
#[derive(Clone, Copy)]
pub struct Mask;

impl ScalarFnVTable for Mask {
    type Options = EmptyOptions;

    ghost bound = { of.Mask };

    ghost options = { options.mask_options };

    ghost is_of = { options.is_mask };

    ghost exactly = { options.mask_exactly };

    ghost told = { options.mask_told };

    fn bind(o: EmptyOptions) -> ScalarFnRef {
        ScalarFnRef::Mask(o)
    }

    fn options_of(f: &ScalarFnRef) -> Option<&EmptyOptions> {
        match f {
            ScalarFnRef::Mask(o) => Some(o),
            _ => None,
        }
    }
}
