// What would do in place of what is refused.
use crate::error::UnfitLiteral;
use crate::report::Span;
use crate::shown::Shown;
use crate::unfit::write_fitting;
use std::fmt;
use std::fmt::{Display, Formatter, Write};

/// What is told of a refused node beside its refusal: what it is given, and what would do.
#[derive(Debug, Drop)]
pub struct Remedy {
    /// What the node is given that the refusal is about.
    pub parts: Vec<Part>,
    /// What would do, an empty text where that isn't known.
    pub advice: String,
}

/// What a refused node is given, and its type.
#[derive(Debug, Drop)]
pub struct Part {
    /// The bytes of the expression that it was read from, where they are cited: those of a path or a
    /// literal.
    pub cited: Option<Span>,
    /// What it is to the node.
    pub role: Role,
    /// Its type as source text.
    pub dtype: String,
}

/// What a part is to its node.
#[derive(Clone, Copy, Debug, PartialEq, Eq)]
pub enum Role {
    /// What stands before an operator.
    Left,
    /// What stands behind it.
    Right,
    /// What a function takes first, or what is looked for in a list.
    Value,
    /// The list in which it is looked for.
    List,
    /// The least that a value may be.
    Lower,
    /// The greatest that it may be.
    Upper,
    /// What stands for null.
    Fill,
    /// The other of two values.
    Other,
    /// Which of two values it is, or whether there is one.
    Mask,
    /// What a branch of a CASE depends on.
    Condition,
    /// What a branch of a CASE gives.
    Branch,
    /// What a CASE gives where no condition is true.
    Else,
}

impl Role {
    // What messages call it.
    fn name(self) -> &'static str {
        match self {
            Role::Left => "the left side",
            Role::Right => "the right side",
            Role::Value => "the value",
            Role::List => "the list",
            Role::Lower => "the lower bound",
            Role::Upper => "the upper bound",
            Role::Fill => "the fill",
            Role::Other => "the other value",
            Role::Mask => "the mask",
            Role::Condition => "a condition",
            Role::Branch => "a branch",
            Role::Else => "the `else`",
        }
    }
}

/// What would do in place of what a message is about.
#[derive(Clone, Copy)]
pub enum Help<'a> {
    /// What the text says.
    Said(&'a str),
    /// The text of that file.
    File(&'a str),
    /// What the remedy of a node of that expression says.
    Remedy(&'a Remedy, &'a str),
    /// What would do in place of a literal of that expression.
    Literal(&'a UnfitLiteral, &'a str),
}

impl Display for Help<'_> {
    fn fmt<W: Write>(&self, f: &mut Formatter<W>) -> fmt::Result {
        match *self {
            Help::Said(text) => f.write_str(text),
            Help::File(name) => write!(f, "the text of that file is `@{}`", Shown(name)),
            Help::Remedy(remedy, expression) => write_remedy(remedy, expression, f),
            Help::Literal(literal, text) => write_fitting(literal, text, f),
        }
    }
}

fn write_remedy<W: Write>(remedy: &Remedy, expression: &str, f: &mut Formatter<W>) -> fmt::Result {
    for (i, part) in remedy.parts.iter().enumerate() {
        if i > 0 {
            f.write_str(", ")?;
        }
        write_part(part, expression, f)?;
    }
    if !remedy.parts.is_empty() && !remedy.advice.is_empty() {
        f.write_str(": ")?;
    }
    Shown(remedy.advice.as_str()).fmt(f)
}

// Writes the part as it stands in the expression, or what it is to its node, and its type.
fn write_part<W: Write>(part: &Part, expression: &str, f: &mut Formatter<W>) -> fmt::Result {
    match part.cited.and_then(|span| cited(expression, span)) {
        Some(text) => Shown(text).fmt(f)?,
        None => f.write_str(part.role.name())?,
    }
    f.write_str(" is ")?;
    Shown(part.dtype.as_str()).fmt(f)
}

// How many characters are cited at most.
const CITED: usize = 40;

/// Those bytes of the text, unless they are too many.
pub(crate) fn cited(text: &str, span: Span) -> Option<&str> {
    let (before, _) = text.split_at_checked(span.end)?;
    let (_, cited) = before.split_at_checked(span.start)?;
    if cited.chars().nth(CITED).is_none() {
        Some(cited)
    } else {
        None
    }
}
