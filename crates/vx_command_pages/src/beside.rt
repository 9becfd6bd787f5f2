// The field that a literal takes its type from.
use crate::error::FieldBeside;
use crate::report::Span;
use std::alloc::Global;
use vx_source::{DEFAULT_NESTING, Placed, Places, parse_open};
use vx_tree::{DType, Expression, ScalarFnRef};

/// The field of that type, over rows of the scope's, beside which the literal in these bytes of the text stands, or else the
/// nearest beside what is around it. None where there is no such field, or something is in the way of telling.
pub(crate) fn field_beside(
    alloc: Global,
    text: &str,
    literal: Span,
    dtype: &DType,
    scope: &DType,
) -> Option<FieldBeside> {
    let readings = parse_open(alloc, text, DEFAULT_NESTING).ok()?;
    let Placed { expression, places } = &readings.first;
    let (mut node, mut place) = (expression, places);
    let mut found = None;
    // (nodes are nested no deeper than they have bytes)
    for _ in 0..=text.len() {
        if place.start == literal.start && place.end == literal.end {
            return found;
        }
        let Expression::Scalar { children, .. } = node else {
            return None;
        };
        let index = place.children.iter().position(|below| below.start <= literal.start
            && literal.end <= below.end)?;
        if let Some(field) = field_among(alloc, children, &place.children, dtype, scope) {
            found = Some(field);
        }
        node = children.get(index)?;
        place = place.children.get(index)?;
    }
    None
}

// The first of the nodes that is a field of the type.
fn field_among(
    alloc: Global,
    nodes: &[Expression],
    places: &[Places],
    dtype: &DType,
    scope: &DType,
) -> Option<FieldBeside> {
    for (node, place) in nodes.iter().zip(places) {
        if is_path(node)
            && let Ok(own) = node.return_dtype(alloc, scope)
            && own.eq_ignore_nullability(dtype)
        {
            return Some(FieldBeside {
                span: Span {
                    start: place.start,
                    end: place.end,
                },
                dtype: own,
            });
        }
    }
    None
}

// Whether the node is a field of the row, or of one of its fields, or the row itself.
fn is_path(node: &Expression) -> bool {
    match node {
        Expression::Root => true,
        Expression::Scalar {
            scalar_fn,
            children,
        } => match (scalar_fn, children.as_slice()) {
            (ScalarFnRef::GetItem(_), [input]) => is_path(input),
            _ => false,
        },
    }
}
