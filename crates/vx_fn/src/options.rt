// What a function is told beside its children.
ghost use Rattle.std.specs.Prelude.{◌≡◌, ℕ, not, option_map};
ghost use Rattle.std.specs.List.{IsDistinct};
ghost use Rattle.std.specs.Str.{bytes_eq};

use vx_dtype::{FieldNames, Nullability};

/// The options of a function that needs none.
#[derive(Clone, Copy, Debug, PartialEq, Eq, Hash)]
pub struct EmptyOptions;

/// The shape of a CASE.
#[derive(Clone, Copy, Debug, PartialEq, Eq, Hash)]
pub struct CaseWhenOptions {
    /// The number of conditions, each with the value beside it.
    pub num_when_then_pairs: u32,
    /// Whether an ELSE value is the last child.
    pub has_else: bool,
}

/// The struct that a `Pack` makes.
#[derive(Clone, Debug, PartialEq, Eq, Hash)]
pub struct PackOptions {
    /// The names of the fields, one a child.
    pub names: FieldNames,
    /// Whether the struct's type admits null.
    pub nullability: Nullability,
}

impl Drop for PackOptions {
    fn drop(self) {
        let PackOptions {
            names,
            nullability: _,
        } = self;
        drop(names);
    }
}

/// Which fields of a struct a `Select` keeps.
#[derive(Clone, Debug, PartialEq, Eq, Hash)]
pub enum FieldSelection {
    /// The fields of these names, in this order.
    Include(FieldNames),
    /// The fields of all other names, in the struct's order.
    Exclude(FieldNames),
}

impl Drop for FieldSelection {
    fn drop(self) {
        match self {
            FieldSelection::Include(names) | FieldSelection::Exclude(names) => drop(names),
        }
    }
}

/// Whether a bound itself is left out.
#[derive(Clone, Copy, Debug, PartialEq, Eq, Hash)]
pub enum StrictComparison {
    /// The bound is left out: `<`.
    Strict,
    /// The bound is let in: `<=`.
    NonStrict,
}

/// The bounds of a `Between`.
#[derive(Clone, Copy, Debug, PartialEq, Eq, Hash)]
pub struct BetweenOptions {
    /// How the lower bound compares to the value.
    pub lower_strict: StrictComparison,
    /// How the value compares to the upper bound.
    pub upper_strict: StrictComparison,
}

/// How a `Like` matches.
#[derive(Clone, Copy, Debug, PartialEq, Eq, Hash)]
pub struct LikeOptions {
    /// Whether the answer is turned round.
    pub negated: bool,
    /// Whether the case of ASCII letters is ignored.
    pub case_insensitive: bool,
}

/// What a `Binary` does with its two operands.
#[derive(Clone, Copy, Debug, PartialEq, Eq, Hash)]
pub enum Operator {
    /// Whether they are equal: `=`.
    Eq,
    /// Whether they differ: `!=`.
    NotEq,
    /// Whether the left one is greater: `>`.
    Gt,
    /// Whether the left one is greater or equal: `>=`.
    Gte,
    /// Whether the left one is less: `<`.
    Lt,
    /// Whether the left one is less or equal: `<=`.
    Lte,
    /// Whether both are true, by Kleene's table: `and`.
    And,
    /// Whether one is true, by Kleene's table: `or`.
    Or,
    /// Their sum: `+`.
    Add,
    /// Their difference: `-`.
    Sub,
    /// Their product: `*`.
    Mul,
    /// Their quotient, of whole numbers cut towards zero: `/`.
    Div,
    /// The remainder of the quotient cut towards zero: `%`.
    Rem,
}

impl CaseWhenOptions {
    ghost use Rattle.vx_fn.specs.Functions.{case_children};

    /// Twice the pairs, plus one with ELSE.
    pub fn num_children(&self) -> usize
        ensures { result ≡ case_children self.now.num_when_then_pairs self.now.has_else }
    {
        let pairs = self.num_when_then_pairs as usize;
        if self.has_else {
            2 * pairs + 1
        } else {
            2 * pairs
        }
    }
}

impl FieldSelection {
    ghost use Rattle.vx_fn.specs.Functions.{selection_names, is_inclusion};

    /// Keeps the fields of these names. Asks distinct names.
    pub fn include(names: FieldNames) -> FieldSelection
        requires { IsDistinct bytes_eq names }
        ensures { result ≡ FieldSelection.Include names }
    {
        Self::Include(names)
    }

    /// Keeps the fields of all other names. Asks distinct names.
    pub fn exclude(names: FieldNames) -> FieldSelection
        requires { IsDistinct bytes_eq names }
        ensures { result ≡ FieldSelection.Exclude names }
    {
        Self::Exclude(names)
    }

    /// Whether the names are those of the fields that are kept.
    pub fn is_include(&self) -> bool
        ensures { result ≡ is_inclusion self.now }
    {
        matches!(self, FieldSelection::Include(_))
    }

    /// Whether the names are those of the fields that are left out.
    pub fn is_exclude(&self) -> bool
        ensures { result ≡ not (is_inclusion self.now) }
    {
        matches!(self, FieldSelection::Exclude(_))
    }

    /// The names, of the fields that are kept or of those that are left out.
    pub fn field_names(&self) -> &FieldNames
        ensures { result.now ≡ selection_names self.now }
    {
        match self {
            FieldSelection::Include(names) | FieldSelection::Exclude(names) => names,
        }
    }
}

impl Operator {
    ghost use Rattle.vx_fn.specs.Functions.{swapped};
    ghost use Rattle.vx_fn.specs.Views.{operation_of};

    /// The operator for exchanged operands: `Gt` and `Lt`, and `Gte` and `Lte`, change places, and
    /// the others stay. None of `Sub`, `Div` and `Rem`.
    pub fn swap(self) -> Option<Operator>
        ensures { option_map operation_of result ≡ swapped (operation_of self) }
    {
        match self {
            Operator::Gt => Some(Operator::Lt),
            Operator::Gte => Some(Operator::Lte),
            Operator::Lt => Some(Operator::Gt),
            Operator::Lte => Some(Operator::Gte),
            Operator::Eq
            | Operator::NotEq
            | Operator::And
            | Operator::Or
            | Operator::Add
            | Operator::Mul => Some(self),
            Operator::Sub | Operator::Div | Operator::Rem => None,
        }
    }
}
