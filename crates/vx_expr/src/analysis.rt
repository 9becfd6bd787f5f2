//! What a bound tree tells: labels and annotations of its nodes, and the field paths that it reads.
pub use vx_rewrite::{
    Annotation, BoundAnnotations, BoundLabels, covers, descendent_bound_annotations,
    direct_bound_annotations, free_fields, label_bound_tree, referenced_field_paths,
};
