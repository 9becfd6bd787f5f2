// Messages of literals that are none of the type that they take from what they stand beside.
use crate::error::UnfitLiteral;
use crate::remedy::cited;
use crate::shown::Shown;
use std::fmt;
use std::fmt::{Display, Formatter, Write};
use vx_source::{TypeText, is_pointed};
use vx_tree::{DType, Value};

/// The literal, as the text has it unless it is long, and the type.
#[derive(Clone, Copy)]
pub(crate) struct UnfitText<'a> {
    /// The literal.
    pub(crate) literal: &'a UnfitLiteral,
    /// The text that it stands in.
    pub(crate) text: &'a str,
}

impl Display for UnfitText<'_> {
    fn fmt<W: Write>(&self, f: &mut Formatter<W>) -> fmt::Result {
        let literal = cited(self.text, self.literal.span).unwrap_or("the literal");
        write!(f, "{literal} is no {}", TypeText(&self.literal.dtype))
    }
}

/// Writes what the literal of the text stands beside, as it is called there unless it is long, with its type; and what would do.
pub(crate) fn write_fitting<W: Write>(
    literal: &UnfitLiteral,
    text: &str,
    f: &mut Formatter<W>,
) -> fmt::Result {
    let Fitting { wanted, example } = what_fits(literal);
    let beside = literal.beside.as_ref();
    let named = beside.and_then(|field| Some((cited(text, field.span)?, &field.dtype)));
    let (name, dtype) = named.unwrap_or(("what it stands beside", &literal.dtype));
    let called = named.map_or("x", |(name, _)| name);
    write!(
        f,
        "{} is {}: write {wanted}",
        Shown(name),
        Shown(TypeText(dtype))
    )?;
    if example.is_empty() {
        Ok(())
    } else {
        write!(f, ", as in {} {example}", Shown(called))
    }
}

// What would do in place of a literal.
#[derive(Clone, Copy)]
struct Fitting {
    // What to write.
    wanted: &'static str,
    // What stands behind the field in an example; an empty text where what to write is one.
    example: &'static str,
}

// What would do in place of the literal.
fn what_fits(literal: &UnfitLiteral) -> Fitting {
    let (wanted, example) = match (&literal.dtype, literal.scalar.value()) {
        (DType::Primitive(..), Value::Int(_)) => (
            "a number in its range, or say a wider type in the schema",
            "",
        ),
        (DType::Primitive(..), _) => ("a whole number", "> 5"),
        (DType::Float(..), _) => ("a number", "> 1.5"),
        (DType::Decimal(decimal, _), _) if decimal.scale() == 0 => (
            "a number that it holds",
            "> 5",
        ),
        (DType::Decimal(..), _) => ("a number that it holds", "> 0.5"),
        (DType::Date(_), _) => ("a day", "> \"2024-01-31\""),
        (DType::Timestamp(timestamp, _), _) => match &timestamp.zone {
            Some(_) => ("an instant", "> \"2024-01-31T10:15:00Z\""),
            None => ("an instant", "> \"2024-01-31T10:15:00\""),
        },
        (DType::Utf8(_), _) => ("a text", "= \"5\""),
        (DType::Bool(_), _) => ("`true` or `false`", ""),
        (DType::Binary(_), _) => ("bytes", "= 0x0a"),
        (DType::List(..) | DType::FixedSizeList(..) | DType::Struct(..), _) => {
            ("its type, as in [1, 2]::list(i32)", "")
        }
    };
    Fitting { wanted, example }
}
