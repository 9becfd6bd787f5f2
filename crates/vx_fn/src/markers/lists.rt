// The marker of a search in a list.
ghost use Rattle.vx_fn.specs.Markers as options;
ghost use Rattle.vx_fn.specs.declared.function.ScalarFnRef.TheVariants as of;

use crate::{EmptyOptions, ScalarFnRef, ScalarFnVTable};

/// Whether a value is among a list's elements.
#[derive(Clone, Copy)]
pub struct ListContains;

impl ScalarFnVTable for ListContains {
    type Options = EmptyOptions;

    ghost bound = { of.ListContains };

    ghost options = { options.list_contains_options };

    ghost is_of = { options.is_list_contains };

    ghost exactly = { options.list_contains_exactly };

    ghost told = { options.list_contains_told };

    fn bind(o: EmptyOptions) -> ScalarFnRef {
        ScalarFnRef::ListContains(o)
    }

    fn options_of(f: &ScalarFnRef) -> Option<&EmptyOptions> {
        match f {
            ScalarFnRef::ListContains(o) => Some(o),
            _ => None,
        }
    }
}
