// Trees joined by their collects.
use super::bound::OfBound;
use super::compared;
use super::constructors::Constructors;
use super::plain::OfSources;
use super::walk::built_by;
use crate::kind::CollectKind;
use crate::scene::Scene;
use crate::told::{refused, typed};
use std::alloc::Global;
use vx_test_support::{Unread, expression, repeated};
use vx_tree::Expression;

/// What joins the trees, of which `;` ends one, by `and` or by `or`: the text of the source, which has
/// to be that of a chain of them; its depth; or text and type of the bound tree, or its refusal.
pub fn collected(
    alloc: Global,
    kind: CollectKind,
    scene: &Scene,
    sign: &str,
    items: &str,
) -> Result<String, Unread> {
    let by_and = match sign {
        "and" => true,
        "or" => false,
        _ => return Err(Unread::Word("neither and nor or")),
    };
    let items = repeated(alloc, items)?;
    let items = items.as_str();
    match kind {
        CollectKind::Bound => collected_bound(alloc, scene, by_and, items),
        CollectKind::Depth => {
            let tree = collected_by(alloc, &OfSources, by_and, items)?;
            Ok(format!(in alloc; "{}", tree.depth(alloc)?)?)
        }
        CollectKind::Text => {
            let tree = collected_by(alloc, &OfSources, by_and, items)?;
            Ok(compared(alloc, &tree, &chain(alloc, sign, items)?)?)
        }
    }
}

fn collected_bound(
    alloc: Global,
    scene: &Scene,
    by_and: bool,
    items: &str,
) -> Result<String, Unread> {
    let by = OfBound {
        scope: &scene.scope,
    };
    match collected_by(alloc, &by, by_and, items) {
        Ok(tree) => Ok(typed(alloc, &tree)?),
        Err(Unread::Refused(refusal)) => Ok(refused(alloc, &refusal)?),
        Err(unread) => Err(unread),
    }
}

fn collected_by<C: Constructors>(
    alloc: Global,
    by: &C,
    by_and: bool,
    items: &str,
) -> Result<C::Tree, Unread> {
    let mut trees = Vec::new(alloc);
    for text in items.split(';') {
        trees.push(built_by(alloc, by, &expression(alloc, text.trim())?)?)?;
    }
    let joined = by.joined(alloc, by_and, trees)?;
    Ok(joined.ok_or("no item")?)
}

// The trees as a chain of source text.
fn chain(alloc: Global, sign: &str, items: &str) -> Result<Expression, Unread> {
    let mut chain = String::new(alloc);
    for text in items.split(';') {
        if !chain.is_empty() {
            chain.push_str(sign)?;
        }
        chain.push_str(format!(in alloc; "({})", text.trim())?.as_str())?;
    }
    expression(alloc, chain.as_str())
}
