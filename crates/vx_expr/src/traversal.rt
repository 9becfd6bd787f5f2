//! Walks over trees: visitors, rewriters, folders, and containers of nodes.
pub use vx_walk::{
    CloneContainer, ElementMapper, ElementVisitor, FoldDownContext, FoldUp, Node, NodeContainer,
    NodeExt, NodeFolderContext, NodeRewriter, NodeVisitor, Transformed, TraversalOrder,
    apply_ref_elements, apply_ref_elements_with, pre_order_visit_down,
};
