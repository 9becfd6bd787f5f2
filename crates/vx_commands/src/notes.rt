// What is told of an expression that may mean something else than who wrote it thought.
use std::fmt;
use std::fmt::{Display, Formatter, Write};
use vx_command_pages::Shown;
use vx_dtype::DType;
use vx_source::{Placed, Places, ScalarText};
use vx_tree::{Expression, Operator, ScalarFnRef};
use vx_value::{Scalar, Value};

/// What is told of an expression, each on a line: of its first comparison with null, and of the first whole number that is
/// read as a day or an instant. Takes no memory.
#[derive(Clone, Copy)]
pub(crate) struct Notes<'a> {
    text: &'a str,
    null: Option<NullComparison<'a>>,
    count: Option<Count<'a>>,
}

// A comparison with null.
#[derive(Clone, Copy)]
struct NullComparison<'a> {
    operator: Operator,
    // What is compared, if it is a field.
    field: Option<&'a str>,
}

// A whole number that is read as a day or an instant.
#[derive(Clone, Copy)]
struct Count<'a> {
    written: &'a str,
    scalar: &'a Scalar,
}

impl<'a> Notes<'a> {
    /// What is told of the expression that was read of that text.
    pub(crate) fn of(text: &'a str, placed: &'a Placed) -> Notes<'a> {
        let mut notes = Notes {
            text,
            null: None,
            count: None,
        };
        notes.see(&placed.expression, Some(&placed.places));
        notes
    }

    // Sees the node and those below it.
    fn see(&mut self, node: &'a Expression, places: Option<&'a Places>) {
        let Expression::Scalar {
            scalar_fn,
            children,
        } = node
        else {
            return;
        };
        match (scalar_fn, children.as_slice()) {
            (ScalarFnRef::Binary(operator), [left, right]) if self.null.is_none() => {
                self.null = self.comparison(*operator, left, right, places);
            }
            (ScalarFnRef::Literal(scalar), _) if self.count.is_none() => {
                self.count = self.count_at(scalar, places);
            }
            _ => {}
        }
        for (index, child) in children.iter().enumerate() {
            self.see(child, places.and_then(|places| places.children.get(index)));
        }
    }

    // The comparison of these by the operator, if one of them is null.
    fn comparison(
        &self,
        operator: Operator,
        left: &Expression,
        right: &Expression,
        places: Option<&'a Places>,
    ) -> Option<NullComparison<'a>> {
        if !is_comparison(operator) {
            return None;
        }
        let (index, compared) = match (is_null(left), is_null(right)) {
            (false, false) => return None,
            (true, _) => (1, right),
            (false, true) => (0, left),
        };
        let field = if is_field(compared) {
            self.text_at(places.and_then(|places| places.children.get(index)))
        } else {
            None
        };
        Some(NullComparison { operator, field })
    }

    // The literal, if it is a day or an instant and is written as a whole number.
    fn count_at(&self, scalar: &'a Scalar, places: Option<&'a Places>) -> Option<Count<'a>> {
        let (DType::Date(_) | DType::Timestamp(..), Value::Int(_)) = (
            scalar.dtype(),
            scalar.value(),
        ) else {
            return None;
        };
        let written = self.text_at(places)?;
        if written
            .bytes()
            .all(|byte| matches!(byte, b'0'..=b'9' | b'-' | b'+' | b'_'))
        {
            Some(Count { written, scalar })
        } else {
            None
        }
    }

    // The text that was read there.
    fn text_at(&self, places: Option<&Places>) -> Option<&'a str> {
        let places = places?;
        self.text.get(places.start..places.end)
    }
}

fn is_comparison(operator: Operator) -> bool {
    match operator {
        Operator::Eq
        | Operator::NotEq
        | Operator::Gt
        | Operator::Gte
        | Operator::Lt
        | Operator::Lte => true,
        Operator::And
        | Operator::Or
        | Operator::Add
        | Operator::Sub
        | Operator::Mul
        | Operator::Div
        | Operator::Rem => false,
    }
}

// Whether the node is a null.
fn is_null(node: &Expression) -> bool {
    match node.as_scalar() {
        Some(ScalarFnRef::Literal(scalar)) => scalar.value().is_null(),
        _ => false,
    }
}

// Whether the node is a field.
fn is_field(node: &Expression) -> bool {
    matches!(node.as_scalar(), Some(ScalarFnRef::GetItem(_)))
}

impl Display for Notes<'_> {
    fn fmt<W: Write>(&self, f: &mut Formatter<W>) -> fmt::Result {
        if let Some(null) = self.null {
            null.fmt(f)?;
        }
        match self.count {
            Some(count) => count.fmt(f),
            None => Ok(()),
        }
    }
}

impl Display for NullComparison<'_> {
    fn fmt<W: Write>(&self, f: &mut Formatter<W>) -> fmt::Result {
        f.write_str("note: a comparison with null is null for each row")?;
        let field = Shown(self.field.unwrap_or("x"));
        match self.operator {
            Operator::Eq => writeln!(f, ": write `{field} is null`"),
            Operator::NotEq => writeln!(f, ": write `{field} is not null`"),
            _ => f.write_str("\n"),
        }
    }
}

impl Display for Count<'_> {
    fn fmt<W: Write>(&self, f: &mut Formatter<W>) -> fmt::Result {
        let Count { written, scalar } = *self;
        let example = match scalar.dtype() {
            DType::Timestamp(timestamp, _) if timestamp.zone.is_some() => "2024-01-31T10:15:00Z",
            DType::Timestamp(..) => "2024-01-31T10:15:00",
            _ => "2024-01-31",
        };
        let read = ScalarText(scalar);
        writeln!(
            f,
            "note: {written} is counted from 1970, and is {read}: write a text, as \"{example}\""
        )
    }
}
