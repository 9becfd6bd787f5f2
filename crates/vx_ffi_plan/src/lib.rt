// Calls from other languages on a plan that is kept behind a handle.
#![tactic(auto)]

mod batch;
mod frames;
mod handle;
mod held;
mod kept;
mod laid;
mod made;
mod paths;
mod scan;
mod scan_stop;
mod scope;
mod select;
mod share;
mod shared;
mod stop;
mod taken;
mod values;

pub use batch::{Asked, GivenBatch};
pub use handle::PlanHandle;
pub use held::{answer_held_batch, answer_held_paths, answer_held_scope, answer_held_type};
pub use kept::{KeptPlan, kept_plan};
pub use made::{answer_new, free_plan};
pub use paths::answer_paths;
pub use scope::{answer_scope, answer_type};
pub use share::share_plan;
pub use shared::SharedPlan;
