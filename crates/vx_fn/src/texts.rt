// The texts of functions and of their options.
ghost use Rattle.std.specs.Prelude.{◌≡◌, Some, []};
ghost use Rattle.std.specs.Fmt.{WritesOnOk};
ghost use Rattle.vx_value.specs.Views.{admits_null};
ghost use Rattle.vx_fn.specs.Texts.{with_commas, operation_text, bound_text, nullability_text, like_text, selection_text, pack_text, between_text, case_text, options_text, function_text};
ghost use Rattle.vx_fn.specs.Views.{function_of, operation_of, is_strict};

use crate::{
    BetweenOptions, CaseWhenOptions, EmptyOptions, FieldSelection, LikeOptions, Operator,
    PackOptions, ScalarFnRef, StrictComparison,
};
use std::fmt;
use std::fmt::{Display, Formatter, Write};
use vx_dtype::{FieldName, Nullability, separator};

/// The name of the function, and its options between parentheses.
impl Display for ScalarFnRef {
    ghost output = { λ g. Some (function_text (function_of g)) };

    fn fmt<W: Write>(&self, f: &mut Formatter<W>) -> fmt::Result {
        f.write_str(self.id())?;
        f.write_str("(")?;
        write_options(self, f)?;
        f.write_str(")")
    }
}

// What the function says of itself beside its name.
fn write_options<W: Write>(scalar_fn: &ScalarFnRef, f: &mut Formatter<W>) -> fmt::Result
    ensures { WritesOnOk W.write_str_gives f.old result (options_text (function_of scalar_fn.now)) f.new }
{
    match scalar_fn {
        ScalarFnRef::CaseWhen(options) => options.fmt(f),
        ScalarFnRef::GetItem(name) => name.fmt(f),
        ScalarFnRef::Literal(scalar) => scalar.fmt(f),
        ScalarFnRef::Pack(options) => options.fmt(f),
        ScalarFnRef::Select(selection) => selection.fmt(f),
        ScalarFnRef::FillNull(options) => options.fmt(f),
        ScalarFnRef::Zip(options) => options.fmt(f),
        ScalarFnRef::Binary(operator) => operator.fmt(f),
        ScalarFnRef::Not(options) => options.fmt(f),
        ScalarFnRef::Between(options) => options.fmt(f),
        ScalarFnRef::Like(options) => options.fmt(f),
        ScalarFnRef::IsNull(options) => options.fmt(f),
        ScalarFnRef::IsNotNull(options) => options.fmt(f),
        ScalarFnRef::Mask(options) => options.fmt(f),
        ScalarFnRef::Cast(target) => target.fmt(f),
        ScalarFnRef::StartsWith(options) => options.fmt(f),
        ScalarFnRef::ByteLength(options) => options.fmt(f),
        ScalarFnRef::ListContains(options) => options.fmt(f),
    }
}

/// Nothing.
impl Display for EmptyOptions {
    ghost output = { λ _. Some [] };

    fn fmt<W: Write>(&self, _f: &mut Formatter<W>) -> fmt::Result {
        Ok(())
    }
}

/// The number of pairs, and whether there is an ELSE, as `case_when(pairs=1, else=true)`.
impl Display for CaseWhenOptions {
    ghost output = { λ o. Some (case_text o.num_when_then_pairs o.has_else) };

    fn fmt<W: Write>(&self, f: &mut Formatter<W>) -> fmt::Result {
        write!(
            f,
            "case_when(pairs={}, else={})",
            self.num_when_then_pairs, self.has_else
        )
    }
}

/// The names and the nullability, as `names: [x, y], nullability: Nullable`.
impl Display for PackOptions {
    ghost output = { λ o. Some (pack_text o.names (admits_null o.nullability)) };

    fn fmt<W: Write>(&self, f: &mut Formatter<W>) -> fmt::Result {
        f.write_str("names: [")?;
        write_names(self.names.as_slice(), f)?;
        f.write_str("], nullability: ")?;
        f.write_str(nullability_word(self.nullability))
    }
}

/// The names between braces, behind a tilde where they are left out.
impl Display for FieldSelection {
    ghost output = { λ s. Some (selection_text s) };

    fn fmt<W: Write>(&self, f: &mut Formatter<W>) -> fmt::Result {
        let (open, names) = match self {
            FieldSelection::Include(names) => ("{", names),
            FieldSelection::Exclude(names) => ("~{", names),
        };
        f.write_str(open)?;
        write_names(names.as_slice(), f)?;
        f.write_str("}")
    }
}

/// The signs of both bounds, as `lower_strict: <, upper_strict: <=`.
impl Display for BetweenOptions {
    ghost output = { λ o. Some (between_text (is_strict o.lower_strict) (is_strict o.upper_strict)) };

    fn fmt<W: Write>(&self, f: &mut Formatter<W>) -> fmt::Result {
        write!(
            f,
            "lower_strict: {}, upper_strict: {}",
            self.lower_strict.sign(),
            self.upper_strict.sign()
        )
    }
}

/// The word of the LIKE: `like`, `not like`, `ilike` or `not ilike`.
impl Display for LikeOptions {
    ghost output = { λ o. Some (like_text o.negated o.case_insensitive) };

    fn fmt<W: Write>(&self, f: &mut Formatter<W>) -> fmt::Result {
        f.write_str(match (self.negated, self.case_insensitive) {
            (false, false) => "like",
            (true, false) => "not like",
            (false, true) => "ilike",
            (true, true) => "not ilike",
        })
    }
}

/// The sign of the operator.
impl Display for Operator {
    ghost output = { λ o. Some (operation_text (operation_of o)) };

    fn fmt<W: Write>(&self, f: &mut Formatter<W>) -> fmt::Result {
        f.write_str(match self {
            Operator::Eq => "=",
            Operator::NotEq => "!=",
            Operator::Gt => ">",
            Operator::Gte => ">=",
            Operator::Lt => "<",
            Operator::Lte => "<=",
            Operator::And => "and",
            Operator::Or => "or",
            Operator::Add => "+",
            Operator::Sub => "-",
            Operator::Mul => "*",
            Operator::Div => "/",
            Operator::Rem => "%",
        })
    }
}

impl StrictComparison {
    /// The sign of a bound: `<` where it is strict, and else `<=`.
    pub fn sign(self) -> &'static str
        ensures { result.now ≡ bound_text (is_strict self) }
    {
        match self {
            StrictComparison::Strict => "<",
            StrictComparison::NonStrict => "<=",
        }
    }
}

/// Writes the names with a comma and a space between them.
pub fn write_names<W: Write>(names: &[FieldName], f: &mut Formatter<W>) -> fmt::Result
    ensures { WritesOnOk W.write_str_gives f.old result (with_commas names.now) f.new }
{
    for (i, name) in names.iter().enumerate() {
        f.write_str(separator(i))?;
        name.fmt(f)?;
    }
    Ok(())
}

fn nullability_word(nullability: Nullability) -> &'static str
    ensures { result.now ≡ nullability_text (admits_null nullability) }
{
    match nullability {
        Nullability::Nullable => "Nullable",
        Nullability::NonNullable => "NonNullable",
    }
}
