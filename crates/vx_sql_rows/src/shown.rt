// Which faults an engine has to show.
use vx_fn::{Operator, ScalarFnRef};
use vx_tree::BoundExpression;
use vx_value::Value;

/// Whether an engine comes to the node at the path in every row: on the way there is no choice, no `and` and
/// `or` of which one operand may decide, and beside it nothing that an engine knows to be null beforehand.
pub fn is_shown(tree: &BoundExpression, path: &[usize]) -> bool {
    let mut node = tree;
    for index in path {
        let children = node.children();
        if !leads_to(node, *index) {
            return false;
        }
        for (i, child) in children.iter().enumerate() {
            if i != *index && !is_plain(child, LEVELS) {
                return false;
            }
        }
        match children.get(*index) {
            Some(child) => node = child,
            None => return false,
        }
    }
    node.children().iter().all(|child| is_plain(child, LEVELS))
}

// Whether the node's value always takes that of the child.
fn leads_to(node: &BoundExpression, index: usize) -> bool {
    match node.as_scalar() {
        Some(ScalarFnRef::Binary(Operator::And | Operator::Or)) => false,
        Some(
            ScalarFnRef::Binary(
                Operator::Add
                | Operator::Sub
                | Operator::Mul
                | Operator::Div
                | Operator::Rem
                | Operator::Eq
                | Operator::NotEq
                | Operator::Lt
                | Operator::Lte
                | Operator::Gt
                | Operator::Gte,
            )
            | ScalarFnRef::Not(_)
            | ScalarFnRef::IsNull(_)
            | ScalarFnRef::IsNotNull(_)
            | ScalarFnRef::Cast(_)
            | ScalarFnRef::ByteLength(_),
        ) => true,
        Some(ScalarFnRef::Between(_)) => index < 2,
        Some(ScalarFnRef::FillNull(_) | ScalarFnRef::Like(_) | ScalarFnRef::StartsWith(_)) => {
            index == 0
        }
        Some(ScalarFnRef::CaseWhen(_) | ScalarFnRef::Zip(_) | ScalarFnRef::Mask(_)) => false,
        Some(ScalarFnRef::GetItem(_) | ScalarFnRef::Pack(_) | ScalarFnRef::Select(_)) => false,
        Some(ScalarFnRef::ListContains(_)) => index == 1,
        Some(ScalarFnRef::Literal(_)) | None => false,
    }
}

// How many nodes stand above one another, at most; of a deeper tree no fault has to be shown.
const LEVELS: usize = 64;

// Whether the tree, of at most so many levels, has no null of its own.
fn is_plain(tree: &BoundExpression, levels: usize) -> bool {
    let Some(below) = levels.checked_sub(1) else {
        return false;
    };
    let is_plain_node = match tree.as_scalar() {
        Some(ScalarFnRef::Literal(scalar)) => has_no_null(scalar.value()),
        Some(ScalarFnRef::CaseWhen(_) | ScalarFnRef::Zip(_) | ScalarFnRef::Mask(_)) => false,
        Some(ScalarFnRef::Binary(_) | ScalarFnRef::Not(_) | ScalarFnRef::Between(_)) => true,
        Some(ScalarFnRef::IsNull(_) | ScalarFnRef::IsNotNull(_) | ScalarFnRef::FillNull(_)) => true,
        Some(ScalarFnRef::Cast(_) | ScalarFnRef::Like(_)) => true,
        Some(ScalarFnRef::StartsWith(_) | ScalarFnRef::ByteLength(_)) => true,
        Some(ScalarFnRef::ListContains(_)) => true,
        Some(ScalarFnRef::GetItem(_) | ScalarFnRef::Pack(_) | ScalarFnRef::Select(_)) | None =>
            true,
    };
    if !is_plain_node {
        return false;
    }
    for child in tree.children() {
        if !is_plain(child, below) {
            return false;
        }
    }
    true
}

// Whether the value isn't null, and no element of a list is.
fn has_no_null(value: &Value) -> bool {
    match value {
        Value::Null => false,
        Value::List(items) => items.iter().all(|item| !matches!(item, Value::Null)),
        _ => true,
    }
}
