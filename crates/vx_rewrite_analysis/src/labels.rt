// Labels of the nodes of a bound tree, from the leaves up.
ghost use Rattle.std.specs.Prelude.{◌≡◌, ◌<◌, IfErr, IfOk, IsTrue, is_some, length};
ghost use Rattle.vx_dtype.specs.declared.error.VortexError.TheVariants.{OutOfMemory};
ghost use Rattle.vx_tree.specs.Trees.{BoundTree};
ghost use Rattle.vx_tree.specs.Views.{bound_of};
ghost use Rattle.vx_rewrite_analysis.specs.Keys.{key_of, entry_at};
ghost use Rattle.vx_rewrite_analysis.specs.Reached.{occurs, IsNodeOf};
ghost use Rattle.vx_rewrite_analysis.specs.Numbers.{tree_at, has_node, IsNumbered};
ghost use Rattle.vx_rewrite_analysis.specs.NumberedLabels.{HasLabels};
ghost use Rattle.vx_rewrite_analysis.specs.Labels.{label, AnswersBy, MergesBy, IsLabelled};

use crate::entries::put_at;
use crate::keys::next_key;
use crate::numbers::{NumberedNode, number_of};
use indexmap::IndexSet;
use std::alloc::{AllocError, Global};
use std::collections::HashMap;
use vx_tree::{BoundExpression, ExactBoundExpr, VortexResult};

/// A label for each node of a bound tree; equal nodes are one key.
pub type BoundLabels<L> = HashMap<ExactBoundExpr, L>;

/// The label of each node: its own by `self_label`, with those of its children merged into it from
/// left to right. There is an entry for each node, of which equal ones share it, and no other.
///
/// Equal nodes are labelled once. Takes time linear in the nodes, in expectation, beside that of the
/// closures. Refuses with `OutOfMemory` (1) alone.
pub fn label_bound_tree<L: Drop, F: Fn(&BoundExpression) -> L + Drop, G: Fn(L, &L) -> L + Drop>(
    alloc: Global,
    e: &BoundExpression,
    self_label: F,
    merge_child: G,
) -> VortexResult<BoundLabels<L>>
    requires labels { (x : _) → IsNodeOf (bound_of x.now) (bound_of e.now) → F.pre self_label x }
    requires merges { G.IsAlwaysCallable merge_child }
    ensures nodes { IfOk result (λ m. (k : _) → is_some (entry_at (key_of k) m) ≡ occurs (key_of k) (bound_of e.now)) }
    ensures labels { IfOk result (λ m. (own : BoundTree → L) (merge : L → L → L) → AnswersBy (F.post self_label) own → MergesBy (G.post merge_child) merge → IsLabelled own merge m) }
    ensures refusal { IfErr result (λ y. y ≡ OutOfMemory) }
{
    let mut nodes = IndexSet::new(alloc);
    let _root = number_of(alloc, e, &mut nodes)?;
    let nodes = nodes.as_slice();
    let labels = labels_of(alloc, nodes, &self_label, &merge_child)?;
    Ok(labels_by_key(alloc, nodes, labels)?)
}

// The labels of the nodes, in the order of their numbers.
fn labels_of<L: Drop, F: Fn(&BoundExpression) -> L, G: Fn(L, &L) -> L>(
    alloc: Global,
    nodes: &[NumberedNode<'_>],
    self_label: &F,
    merge_child: &G,
) -> Result<Vec<L>, AllocError>
    requires numbered { IsNumbered nodes.now }
    requires labels { (x : _) → IsTrue (has_node (bound_of x.now) nodes.now) → F.pre self_label.now x }
    requires merges { G.IsAlwaysCallable merge_child.now }
    ensures count { IfOk result (λ labels. length labels.items ≡ length nodes.now) }
    ensures labels { IfOk result (λ labels. (own : BoundTree → L) (merge : L → L → L) → AnswersBy (F.post self_label.now) own → MergesBy (G.post merge_child.now) merge
        → HasLabels own merge nodes.now labels.items) }
{
    let mut labels = Vec::with_capacity(alloc, nodes.len())?;
    for number in 0..nodes.len() {
        let label = label_of(nodes, number, labels.as_slice(), self_label, merge_child);
        labels.push(label)?;
    }
    Ok(labels)
}

// The label of the node; those of its children, whose numbers are lower, are there.
fn label_of<L, F: Fn(&BoundExpression) -> L, G: Fn(L, &L) -> L>(
    nodes: &[NumberedNode<'_>],
    number: usize,
    labels: &[L],
    self_label: &F,
    merge_child: &G,
) -> L
    requires numbered { IsNumbered nodes.now }
    requires within { number < length nodes.now }
    requires count { length labels.now ≡ number }
    requires labels { (x : _) → IsTrue (has_node (bound_of x.now) nodes.now) → F.pre self_label.now x }
    requires merges { G.IsAlwaysCallable merge_child.now }
    ensures { (own : BoundTree → L) (merge : L → L → L) → AnswersBy (F.post self_label.now) own → MergesBy (G.post merge_child.now) merge → HasLabels own merge nodes.now labels.now
        → result ≡ label own merge (tree_at nodes.now number) }
{
    let node = &nodes[number];
    let mut label = self_label(node.tree);
    for child in node.children.as_slice() {
        label = merge_child(label, &labels[*child]);
    }
    label
}

// The labels by the keys of their nodes.
fn labels_by_key<L: Drop>(
    alloc: Global,
    nodes: &[NumberedNode<'_>],
    labels: Vec<L>,
) -> Result<BoundLabels<L>, AllocError>
    requires numbered { IsNumbered nodes.now }
    requires count { length labels.items ≡ length nodes.now }
    ensures nodes { IfOk result (λ m. (k : _) → is_some (entry_at (key_of k) m) ≡ has_node (key_of k) nodes.now) }
    ensures labels { IfOk result (λ m. (own : BoundTree → L) (merge : L → L → L) → HasLabels own merge nodes.now labels.items → IsLabelled own merge m) }
{
    let mut by_key = HashMap::with_capacity(alloc, nodes.len())?;
    let mut digests = Vec::with_capacity(alloc, nodes.len())?;
    for label in labels {
        let key = next_key(alloc, nodes, &mut digests)?;
        put_at(&mut by_key, key, label)?;
    }
    Ok(by_key)
}
