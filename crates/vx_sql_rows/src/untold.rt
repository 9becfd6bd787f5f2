// Which expressions have no text in an engine.
use vx_dtype::DType;
use vx_fn::{Operator, ScalarFnRef};
use vx_sql::{Dialect, Reason, Unsupported};
use vx_sql_chance::has_measures;
use vx_tree::BoundExpression;

/// Whether there is no text since the engine lacks measures, their arithmetic or the order of floats, since a day is far, or
/// since a float takes more digits than are written. DuckDB and Spark have no text of some quotients and remainders.
pub fn is_untold(dialect: Dialect, tree: &BoundExpression, unsupported: &Unsupported) -> bool {
    let Unsupported::Node { path, reason } = unsupported else {
        return false;
    };
    let Some(node) = node_at(tree, path.as_slice()) else {
        return false;
    };
    match reason {
        Reason::UnknownType => is_measure(node) && !has_measures(dialect),
        Reason::UnknownFunction => {
            is_arithmetic(node) && (is_measure(node) || lacks_quotients(dialect))
        }
        Reason::FarDay => {
            is_measure(node) || node.children().iter().any(|child| is_measure(child))
        }
        _ => is_float(node) || node.children().iter().any(|child| is_float(child)),
    }
}

fn node_at<'a>(tree: &'a BoundExpression, path: &[usize]) -> Option<&'a BoundExpression> {
    let mut node = tree;
    for index in path {
        node = node.children().get(*index)?;
    }
    Some(node)
}

// Whether it gives a day, a decimal, an instant or a float.
fn is_measure(node: &BoundExpression) -> bool {
    matches!(
        node.dtype(),
        DType::Date(_) | DType::Decimal(..) | DType::Timestamp(..) | DType::Float(..)
    )
}

fn is_float(node: &BoundExpression) -> bool {
    matches!(node.dtype(), DType::Float(..))
}

fn is_arithmetic(node: &BoundExpression) -> bool {
    matches!(
        node.as_scalar(),
        Some(ScalarFnRef::Binary(
            Operator::Add | Operator::Sub | Operator::Mul | Operator::Div | Operator::Rem
        ))
    )
}

fn lacks_quotients(dialect: Dialect) -> bool {
    match dialect {
        Dialect::DuckDb | Dialect::Spark => true,
        Dialect::Postgres | Dialect::Sqlite | Dialect::ClickHouse => false,
    }
}
