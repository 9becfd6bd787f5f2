// The markers of the functions that make structs or take them apart.
ghost use Rattle.vx_fn.specs.Markers as options;
ghost use Rattle.vx_fn.specs.declared.function.ScalarFnRef.TheVariants as of;

use crate::{FieldSelection, PackOptions, ScalarFnRef, ScalarFnVTable};
use vx_dtype::FieldName;

/// The first field of a name.
#[derive(Clone, Copy)]
pub struct GetItem;

impl ScalarFnVTable for GetItem {
    type Options = FieldName;

    ghost bound = { of.GetItem };

    ghost options = { options.get_item_options };

    ghost is_of = { options.is_get_item };

    ghost exactly = { options.get_item_exactly };

    ghost told = { options.get_item_told };

    fn bind(o: FieldName) -> ScalarFnRef {
        ScalarFnRef::GetItem(o)
    }

    fn options_of(f: &ScalarFnRef) -> Option<&FieldName> {
        match f {
            ScalarFnRef::GetItem(o) => Some(o),
            _ => None,
        }
    }
}

/// A struct of its children.
#[derive(Clone, Copy)]
pub struct Pack;

impl ScalarFnVTable for Pack {
    type Options = PackOptions;

    ghost bound = { of.Pack };

    ghost options = { options.pack_options };

    ghost is_of = { options.is_pack };

    ghost exactly = { options.pack_exactly };

    ghost told = { options.pack_told };

    fn bind(o: PackOptions) -> ScalarFnRef {
        ScalarFnRef::Pack(o)
    }

    fn options_of(f: &ScalarFnRef) -> Option<&PackOptions> {
        match f {
            ScalarFnRef::Pack(o) => Some(o),
            _ => None,
        }
    }
}

/// A struct of some of the child's fields.
#[derive(Clone, Copy)]
pub struct Select;

impl ScalarFnVTable for Select {
    type Options = FieldSelection;

    ghost bound = { of.Select };

    ghost options = { options.select_options };

    ghost is_of = { options.is_select };

    ghost exactly = { options.select_exactly };

    ghost told = { options.select_told };

    fn bind(o: FieldSelection) -> ScalarFnRef {
        ScalarFnRef::Select(o)
    }

    fn options_of(f: &ScalarFnRef) -> Option<&FieldSelection> {
        match f {
            ScalarFnRef::Select(o) => Some(o),
            _ => None,
        }
    }
}
