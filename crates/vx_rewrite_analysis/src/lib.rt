// Analyses of bound trees: what each node is labelled or annotated with.
#![tactic(auto)]

mod annotation;
mod annotations;
mod answered;
mod covered;
mod direct;
mod entries;
mod fields;
mod keys;
mod labels;
mod numbers;
mod reached;

pub use annotation::Annotation;
pub use annotations::{BoundAnnotations, descendent_bound_annotations};
pub use answered::AnsweredNodes;
pub use covered::covers;
pub use direct::direct_bound_annotations;
pub use fields::free_fields;
pub use labels::{BoundLabels, label_bound_tree};
