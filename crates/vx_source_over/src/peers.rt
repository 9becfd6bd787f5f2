// Which literals were written without a type, and which children of a node have to agree in type.
ghost use Rattle.std.specs.Prelude.{◌≡◌, ℕ, option_map};
ghost use Rattle.std.specs.Option.{is_some};
ghost use Rattle.vx_fn.specs.Views.{function_of, operation_of};
ghost use Rattle.vx_tree.specs.Views.{tree_of};
ghost use Rattle.vx_source_over.specs.Peers.{is_branch, is_peer, is_arithmetic, has_type_of_peers, is_in, literal_of, open_scalar, child_at};

use vx_fn::{Operator, ScalarFnRef};
use vx_source_parser::Places;
use vx_tree::Expression;
use vx_value::Scalar;

// What the other reading has at a node, and the bytes that the node was read from.
#[derive(Clone, Copy)]
pub(crate) struct Beside<'a> {
    pub other: Option<&'a Expression>,
    pub places: Option<&'a Places>,
}

// The same of the node's child of that index.
pub(crate) fn beside_child(beside: Beside, i: usize) -> Beside
    ensures { option_map (λ d. tree_of d.now) result.other ≡ child_at (option_map (λ d. tree_of d.now) beside.entry.other) i }
{
    Beside {
        other: other_child(beside.other, i),
        places: match beside.places {
            Some(places) => places.children.get(i),
            None => None,
        },
    }
}

// What the other reading has at the child of that index.
fn other_child(other: Option<&Expression>, i: usize) -> Option<&Expression>
    ensures { option_map (λ d. tree_of d.now) result ≡ child_at (option_map (λ d. tree_of d.now) other.entry) i }
{
    match other {
        Some(node) => node.children().get(i),
        None => None,
    }
}

// The first byte of the node, and the one behind its last.
pub(crate) fn bytes_of(beside: Beside) -> (usize, usize) {
    match beside.places {
        Some(places) => (places.start, places.end),
        None => (0, 0),
    }
}

// Whether the child of that index has to agree in type with others.
pub(crate) fn is_peer(scalar_fn: &ScalarFnRef, i: usize) -> bool
    ensures { result ≡ is_peer (function_of scalar_fn.now) i }
{
    match scalar_fn {
        ScalarFnRef::CaseWhen(options) => is_branch(options.num_when_then_pairs, i),
        ScalarFnRef::FillNull(_)
        | ScalarFnRef::Binary(_)
        | ScalarFnRef::Between(_)
        | ScalarFnRef::ListContains(_) => true,
        ScalarFnRef::Zip(_) => i < 2,
        ScalarFnRef::GetItem(_)
        | ScalarFnRef::Literal(_)
        | ScalarFnRef::Pack(_)
        | ScalarFnRef::Select(_)
        | ScalarFnRef::Not(_)
        | ScalarFnRef::Like(_)
        | ScalarFnRef::IsNull(_)
        | ScalarFnRef::IsNotNull(_)
        | ScalarFnRef::Mask(_)
        | ScalarFnRef::Cast(_)
        | ScalarFnRef::StartsWith(_)
        | ScalarFnRef::ByteLength(_) => false,
    }
}

// Whether a child of a CASE is a value, and no condition.
fn is_branch(pairs: u32, i: usize) -> bool
    ensures { result ≡ is_branch pairs i }
{
    i % 2 == 1 || i == 2 * pairs as usize
}

// Whether a node of the function has the type of its peers.
pub(crate) fn has_type_of_peers(scalar_fn: &ScalarFnRef) -> bool
    ensures { result ≡ has_type_of_peers (function_of scalar_fn.now) }
{
    match scalar_fn {
        ScalarFnRef::Binary(operator) => is_arithmetic(*operator),
        ScalarFnRef::CaseWhen(_) | ScalarFnRef::FillNull(_) | ScalarFnRef::Zip(_) => true,
        ScalarFnRef::GetItem(_)
        | ScalarFnRef::Literal(_)
        | ScalarFnRef::Pack(_)
        | ScalarFnRef::Select(_)
        | ScalarFnRef::Not(_)
        | ScalarFnRef::Between(_)
        | ScalarFnRef::Like(_)
        | ScalarFnRef::IsNull(_)
        | ScalarFnRef::IsNotNull(_)
        | ScalarFnRef::Mask(_)
        | ScalarFnRef::Cast(_)
        | ScalarFnRef::StartsWith(_)
        | ScalarFnRef::ByteLength(_)
        | ScalarFnRef::ListContains(_) => false,
    }
}

// Whether the operator's value has the type of its operands.
fn is_arithmetic(operator: Operator) -> bool
    ensures { result ≡ is_arithmetic (operation_of operator) }
{
    match operator {
        Operator::Add | Operator::Sub | Operator::Mul | Operator::Div | Operator::Rem => true,
        Operator::Eq
        | Operator::NotEq
        | Operator::Gt
        | Operator::Gte
        | Operator::Lt
        | Operator::Lte
        | Operator::And
        | Operator::Or => false,
    }
}

// The scalar of a literal that was written without a type.
pub(crate) fn open_scalar<'a>(
    scalar_fn: &'a ScalarFnRef,
    other: Option<&Expression>,
) -> Option<&'a Scalar>
    ensures { option_map (λ c. c.now) result ≡ open_scalar (function_of scalar_fn.now) (option_map (λ d. tree_of d.now) other.entry) }
{
    let scalar = literal_of(scalar_fn)?;
    let read = literal_of(other?.as_scalar()?)?;
    if scalar.dtype() == read.dtype() {
        None
    } else {
        Some(scalar)
    }
}

// Whether that is a literal that was written without a type.
pub(crate) fn is_untyped(scalar_fn: &ScalarFnRef, other: Option<&Expression>) -> bool
    ensures { result ≡ is_some (open_scalar (function_of scalar_fn.now) (option_map (λ d. tree_of d.now) other.entry)) }
{
    open_scalar(scalar_fn, other).is_some()
}

// Whether the node stands for `in` over literals: an equality where the other reading has a search in a list.
pub(crate) fn is_in(scalar_fn: &ScalarFnRef, other: Option<&Expression>) -> bool
    ensures { result ≡ is_in (function_of scalar_fn.now) (option_map (λ d. tree_of d.now) other.entry) }
{
    let ScalarFnRef::Binary(Operator::Eq) = scalar_fn else {
        return false;
    };
    match other {
        Some(node) => matches!(node.as_scalar(), Some(ScalarFnRef::ListContains(_))),
        None => false,
    }
}

// The scalar of a literal.
fn literal_of(scalar_fn: &ScalarFnRef) -> Option<&Scalar>
    ensures { option_map (λ c. c.now) result ≡ literal_of (function_of scalar_fn.now) }
{
    match scalar_fn {
        ScalarFnRef::Literal(scalar) => Some(scalar),
        _ => None,
    }
}
