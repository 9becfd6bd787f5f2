// Bounds of what functions give, by their children's. None of these calls takes memory.
//
// The recursion over a tree calls what puts bounds into a place. That isn't inlined, since a frame has a
// place of its own for the answer of each call that is made in it.
ghost use Rattle.std.specs.Prelude.{◌≡◌, ◌∷◌, [], IsTrue};
ghost use Rattle.vx_value.specs.Types.{null};
ghost use Rattle.vx_value.specs.Views.{type_of};
ghost use Rattle.vx_fn.specs.Views.{function_of, operation_of};
ghost use Rattle.vx_prune_bounds.specs.Bounds.{any_of, exactly, meet, IsProper};
ghost use Rattle.vx_prune_bounds.specs.Kernels.{choice_bounds};
ghost use Rattle.vx_prune_bounds.specs.Views.{bounds_view};
ghost use Rattle.vx_prune_tree.specs.Bounding.{a_struct, binary_bounds, fn_bounds, item_bounds, unknown};
ghost use Rattle.vx_prune_tree.specs.Cases.{is_of_children};

use vx_dtype::DType;
use vx_floats::Arithmetic;
use vx_fn::{Operator, ScalarFnRef};
use vx_prune_bounds::{
    Bounds, Truths, arithmetic_bounds, begun_truths, between_truths, choice_bounds,
    comparison_truths, fill_bounds, like_truths, mask_bounds,
};
use vx_value::Scalar;

// Those of a value of which nothing is known.
pub(crate) fn unknown<'a>() -> Bounds<'a>
    ensures { bounds_view result ≡ unknown }
{
    Bounds {
        null: true,
        value: true,
        least: None,
        greatest: None,
    }
}

// Puts the same there.
#[inline(never)]
pub(crate) fn put_unknown(known: &mut Bounds)
    ensures { bounds_view known.new ≡ unknown }
{
    *known = unknown();
}

// Puts those of null there.
#[inline(never)]
pub(crate) fn put_null(known: &mut Bounds)
    ensures { bounds_view known.new ≡ exactly null }
{
    *known = Bounds::only_null();
}

// Puts those of a literal there.
#[inline(never)]
pub(crate) fn put_literal<'a>(scalar: &'a Scalar, known: &mut Bounds<'a>)
    ensures { bounds_view known.new ≡ exactly scalar.now.value }
{
    *known = Bounds::exactly(scalar.value());
}

// Puts those of a struct that isn't null there.
#[inline(never)]
pub(crate) fn put_struct(known: &mut Bounds)
    ensures { bounds_view known.new ≡ a_struct }
{
    *known = Bounds {
        null: false,
        value: true,
        least: None,
        greatest: None,
    };
}

// Puts those of a function of one child in the place of the child's.
#[inline(never)]
pub(crate) fn put_of_one(f: &ScalarFnRef, x: &mut Bounds)
    requires { IsTrue (is_of_children (function_of f.now)) }
    ensures { bounds_view x.new ≡ fn_bounds (function_of f.now) (bounds_view x.old ∷ []) }
{
    match f {
        ScalarFnRef::GetItem(_) => *x = item_bounds(x),
        ScalarFnRef::Select(_) => *x = x.shaped_as(),
        ScalarFnRef::Not(_) => *x = Bounds::of_truths(x.truths().not()),
        ScalarFnRef::IsNull(_) => *x = Bounds::of_truths(x.null_truths()),
        ScalarFnRef::IsNotNull(_) => *x = Bounds::of_truths(x.null_truths().not()),
        ScalarFnRef::Cast(_) => {}
        ScalarFnRef::ByteLength(_) => *x = x.lengths(),
        _ => *x = unknown(),
    }
}

// Puts those of a function of two children in the place of the first child's.
#[inline(never)]
pub(crate) fn put_of_two<'a>(f: &ScalarFnRef, x: &mut Bounds<'a>, y: &Bounds<'a>)
    requires { IsTrue (is_of_children (function_of f.now)) }
    ensures { bounds_view x.new ≡ fn_bounds (function_of f.now) (bounds_view x.old ∷ bounds_view y.now ∷ []) }
{
    match f {
        ScalarFnRef::FillNull(_) => *x = fill_bounds(x, y),
        ScalarFnRef::Binary(operator) => put_of_operator(*operator, x, y),
        ScalarFnRef::Like(o) => {
            *x = Bounds::of_truths(like_truths(o.negated, o.case_insensitive, x, y));
        }
        ScalarFnRef::StartsWith(_) => *x = Bounds::of_truths(begun_truths(x, y)),
        ScalarFnRef::Mask(_) => *x = mask_bounds(x, y.truths()),
        _ => *x = unknown(),
    }
}

// Puts those of a function of three children in the place of the first child's.
#[inline(never)]
pub(crate) fn put_of_three<'a>(f: &ScalarFnRef, x: &mut Bounds<'a>, y: &Bounds<'a>, z: &Bounds<'a>)
    requires { IsTrue (is_of_children (function_of f.now)) }
    ensures { bounds_view x.new ≡ fn_bounds (function_of f.now) (bounds_view x.old ∷ bounds_view y.now ∷ bounds_view z.now ∷ []) }
{
    match f {
        ScalarFnRef::Zip(_) => *x = choice_bounds(z.truths(), x, y),
        ScalarFnRef::Between(options) => *x = Bounds::of_truths(between_truths(options, x, y, z)),
        _ => *x = unknown(),
    }
}

// Puts those of a CASE with one pair more in the place of those without it.
#[inline(never)]
pub(crate) fn put_of_pair<'a>(condition: Truths, value: &Bounds<'a>, rest: &mut Bounds<'a>)
    ensures { bounds_view rest.new ≡ choice_bounds condition (bounds_view value.now) (bounds_view rest.old) }
{
    *rest = choice_bounds(condition, value, rest);
}

// Puts what of these is of the type in their place: since their least end isn't above their greatest,
// that is all but null, and null where it is of the type.
pub(crate) fn put_of_type(dtype: &DType, x: &mut Bounds)
    requires { IsProper (bounds_view x.old) }
    ensures { bounds_view x.new ≡ meet (any_of (type_of dtype.now)) (bounds_view x.old) }
{
    x.null = x.null && dtype.is_nullable();
}

// Puts those of the operator between two operands in the place of the first one's.
fn put_of_operator(operator: Operator, x: &mut Bounds, y: &Bounds)
    ensures { bounds_view x.new ≡ binary_bounds (operation_of operator) (bounds_view x.old) (bounds_view y.now) }
{
    match operator {
        Operator::And => *x = Bounds::of_truths(x.truths().and(y.truths())),
        Operator::Or => *x = Bounds::of_truths(x.truths().or(y.truths())),
        Operator::Add => *x = arithmetic_bounds(Arithmetic::Sum, x, y),
        Operator::Sub => *x = arithmetic_bounds(Arithmetic::Difference, x, y),
        Operator::Mul => *x = arithmetic_bounds(Arithmetic::Product, x, y),
        Operator::Div => *x = arithmetic_bounds(Arithmetic::Quotient, x, y),
        Operator::Rem => *x = arithmetic_bounds(Arithmetic::Remainder, x, y),
        Operator::Eq
        | Operator::NotEq
        | Operator::Gt
        | Operator::Gte
        | Operator::Lt
        | Operator::Lte => *x = Bounds::of_truths(comparison_truths(operator, x, y)),
    }
}

// Those of a field of a struct, of which its type alone is known.
fn item_bounds<'a>(x: &Bounds) -> Bounds<'a>
    ensures { bounds_view result ≡ item_bounds (bounds_view x.now) }
{
    Bounds {
        null: true,
        value: x.value,
        least: None,
        greatest: None,
    }
}
