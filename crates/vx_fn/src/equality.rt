// `==` of functions: they are equal exactly where they stand for one and the same function.
ghost use Rattle.std.specs.Prelude.{◌≡◌};
ghost use Rattle.std.specs.Cmp.{on_equiv, on_per, partial_equiv_from_equiv};
ghost use Rattle.vx_fn.specs.Equality.{equal_function, operation_index, function_index, function_fed};
ghost use Rattle.vx_fn.specs.Deciding.{equal_function_equiv, function_alike};
ghost use Rattle.vx_fn.specs.Views.{function_of, is_strict, operation_of};

use crate::{FieldSelection, Operator, ScalarFnRef, StrictComparison};
use std::hash::{Hash, Hasher};

impl StrictComparison {
    // Whether the bound itself is left out.
    pub(crate) fn is_strict(self) -> bool
        ensures { result ≡ is_strict self }
    {
        matches!(self, StrictComparison::Strict)
    }
}

impl Operator {
    // The operator's place among the thirteen.
    pub(crate) fn index(self) -> u8
        ensures { result ≡ operation_index (operation_of self) }
    {
        match self {
            Operator::Eq => 0,
            Operator::NotEq => 1,
            Operator::Gt => 2,
            Operator::Gte => 3,
            Operator::Lt => 4,
            Operator::Lte => 5,
            Operator::And => 6,
            Operator::Or => 7,
            Operator::Add => 8,
            Operator::Sub => 9,
            Operator::Mul => 10,
            Operator::Div => 11,
            Operator::Rem => 12,
        }
    }
}

impl ScalarFnRef {
    // The function's place among them all.
    fn index(&self) -> u8
        ensures { result ≡ function_index (function_of self.now) }
    {
        match self {
            ScalarFnRef::CaseWhen(_) => 0,
            ScalarFnRef::GetItem(_) => 1,
            ScalarFnRef::Literal(_) => 2,
            ScalarFnRef::Pack(_) => 3,
            ScalarFnRef::Select(_) => 4,
            ScalarFnRef::FillNull(_) => 5,
            ScalarFnRef::Zip(_) => 6,
            ScalarFnRef::Binary(_) => 7,
            ScalarFnRef::Not(_) => 8,
            ScalarFnRef::Between(_) => 9,
            ScalarFnRef::Like(_) => 10,
            ScalarFnRef::IsNull(_) => 11,
            ScalarFnRef::IsNotNull(_) => 12,
            ScalarFnRef::Mask(_) => 13,
            ScalarFnRef::Cast(_) => 14,
            ScalarFnRef::StartsWith(_) => 15,
            ScalarFnRef::ByteLength(_) => 16,
            ScalarFnRef::ListContains(_) => 17,
        }
    }
}

impl PartialEq for ScalarFnRef {
    ghost eq = { λ f g. equal_function (function_of f) (function_of g) };

    ghost laws = { on_per function_of (partial_equiv_from_equiv equal_function_equiv) };

    fn eq(&self, other: &ScalarFnRef) -> bool {
        match (self, other) {
            (ScalarFnRef::CaseWhen(a), ScalarFnRef::CaseWhen(b)) => {
                a.num_when_then_pairs == b.num_when_then_pairs && a.has_else == b.has_else
            }
            (ScalarFnRef::GetItem(a), ScalarFnRef::GetItem(b)) => a == b,
            (ScalarFnRef::Literal(a), ScalarFnRef::Literal(b)) => a == b,
            (ScalarFnRef::Pack(a), ScalarFnRef::Pack(b)) => {
                a.names == b.names && a.nullability.admits_null() == b.nullability.admits_null()
            }
            (ScalarFnRef::Select(a), ScalarFnRef::Select(b)) => match (a, b) {
                (FieldSelection::Include(ns), FieldSelection::Include(ms)) => ns == ms,
                (FieldSelection::Exclude(ns), FieldSelection::Exclude(ms)) => ns == ms,
                _ => false,
            },
            (ScalarFnRef::FillNull(_), ScalarFnRef::FillNull(_)) => true,
            (ScalarFnRef::Zip(_), ScalarFnRef::Zip(_)) => true,
            (ScalarFnRef::Binary(a), ScalarFnRef::Binary(b)) => a.index() == b.index(),
            (ScalarFnRef::Not(_), ScalarFnRef::Not(_)) => true,
            (ScalarFnRef::Between(a), ScalarFnRef::Between(b)) => {
                a.lower_strict.is_strict() == b.lower_strict.is_strict()
                    && a.upper_strict.is_strict() == b.upper_strict.is_strict()
            }
            (ScalarFnRef::Like(a), ScalarFnRef::Like(b)) => {
                a.negated == b.negated && a.case_insensitive == b.case_insensitive
            }
            (ScalarFnRef::IsNull(_), ScalarFnRef::IsNull(_)) => true,
            (ScalarFnRef::IsNotNull(_), ScalarFnRef::IsNotNull(_)) => true,
            (ScalarFnRef::Mask(_), ScalarFnRef::Mask(_)) => true,
            (ScalarFnRef::Cast(a), ScalarFnRef::Cast(b)) => a == b,
            (ScalarFnRef::StartsWith(_), ScalarFnRef::StartsWith(_)) => true,
            (ScalarFnRef::ByteLength(_), ScalarFnRef::ByteLength(_)) => true,
            (ScalarFnRef::ListContains(_), ScalarFnRef::ListContains(_)) => true,
            _ => false,
        }
    }
}

impl Eq for ScalarFnRef {
    ghost laws = { on_equiv function_of equal_function_equiv };
}

impl Hash for ScalarFnRef {
    ghost hash_input = { λ f. function_fed (function_of f) };

    ghost respects_eq = { λ x y. function_alike.fed (function_of x) (function_of y) };

    fn hash<H: Hasher>(&self, state: &mut H) {
        state.write_u8(self.index());
        match self {
            ScalarFnRef::CaseWhen(o) => {
                state.write_u32(o.num_when_then_pairs);
                o.has_else.hash(state);
            }
            ScalarFnRef::GetItem(name) => name.hash(state),
            ScalarFnRef::Literal(scalar) => scalar.hash(state),
            ScalarFnRef::Pack(o) => {
                o.names.hash(state);
                o.nullability.admits_null().hash(state);
            }
            ScalarFnRef::Select(selection) => {
                state.write_u8(if selection.is_include() { 0 } else { 1 });
                selection.field_names().hash(state);
            }
            ScalarFnRef::Binary(operator) => state.write_u8(operator.index()),
            ScalarFnRef::Between(o) => {
                o.lower_strict.is_strict().hash(state);
                o.upper_strict.is_strict().hash(state);
            }
            ScalarFnRef::Like(o) => {
                o.negated.hash(state);
                o.case_insensitive.hash(state);
            }
            ScalarFnRef::Cast(dtype) => dtype.hash(state),
            _ => {}
        }
    }
}
