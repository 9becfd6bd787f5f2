// Walks over trees: visitors, rewriters, folds, and containers of nodes.
#![tactic(auto)]

mod clone_container;
mod closures;
mod container;
mod containers;
mod elements;
mod ext;
mod fold;
mod node;
mod order;
mod pre_order;
mod rewrite;
mod siblings;
mod transformed;
mod trees;
mod visit;

pub use clone_container::CloneContainer;
pub use container::{NodeContainer, apply_ref_elements, apply_ref_elements_with};
pub use elements::{ElementMapper, ElementVisitor};
pub use ext::NodeExt;
pub use fold::{FoldDownContext, FoldUp, NodeFolderContext};
pub use node::Node;
pub use order::TraversalOrder;
pub use pre_order::pre_order_visit_down;
pub use rewrite::NodeRewriter;
pub use transformed::Transformed;
pub use visit::NodeVisitor;
