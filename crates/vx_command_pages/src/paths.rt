// Paths of fields as text.
use std::fmt;
use std::fmt::{Display, Formatter, Write};
use vx_source_types::write_name;
use vx_value::{Field, FieldPath, FieldPathSet};

/// The path as an expression says it: the scope, and each name behind a dot.
#[derive(Clone, Copy)]
pub(crate) struct PathText<'a>(pub(crate) &'a FieldPath);

impl Display for PathText<'_> {
    fn fmt<W: Write>(&self, f: &mut Formatter<W>) -> fmt::Result {
        f.write_str("$")?;
        for Field::Name(name) in self.0.parts() {
            f.write_str(".")?;
            write_name(name, f)?;
        }
        Ok(())
    }
}

/// The paths that are read, with commas between them.
#[derive(Clone, Copy)]
pub(crate) struct ReadPaths<'a>(pub(crate) &'a FieldPathSet);

impl Display for ReadPaths<'_> {
    fn fmt<W: Write>(&self, f: &mut Formatter<W>) -> fmt::Result {
        let mut is_first = true;
        for path in self.0.iter() {
            if !is_first {
                f.write_str(", ")?;
            }
            is_first = false;
            PathText(path).fmt(f)?;
        }
        if is_first {
            f.write_str("nothing")?;
        }
        Ok(())
    }
}
