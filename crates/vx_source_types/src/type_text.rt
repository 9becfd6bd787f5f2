// Types as source text.
ghost use Rattle.std.specs.Prelude.{Some};
ghost use Rattle.std.specs.Fmt.{WritesOnOk};
ghost use Rattle.vx_dtype.specs.Views.{type_of};
ghost use Rattle.vx_source_types.specs.TypeTexts.{type_source};

use crate::notation::Source;
use std::fmt;
use std::fmt::{Display, Formatter, Write};
use vx_dtype::{DType, write_type_in};

/// The type as source text: its text, with the names that are no words between backquotes. It takes no memory.
#[derive(Clone, Copy)]
pub struct TypeText<'a>(pub &'a DType);

impl Display for TypeText<'_> {
    ghost output = { λ t. Some (type_source (type_of t.0.now)) };

    fn fmt<W: Write>(&self, f: &mut Formatter<W>) -> fmt::Result {
        write_type(self.0, f)
    }
}

/// Writes the type as source text.
pub fn write_type<W: Write>(t: &DType, f: &mut Formatter<W>) -> fmt::Result
    ensures { WritesOnOk W.write_str_gives f.old result (type_source (type_of t.now)) f.new }
{
    write_type_in(&Source, t, f)
}
