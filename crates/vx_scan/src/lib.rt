// Scans: what a query asks of a batch is read, and no more.
#![tactic(auto)]

mod laws;
mod planned;
mod scanned;

pub use laws::normal_trees_fault_alike;
pub use planned::{ScanPlan, plan, plan_with};
pub use scanned::scan;
