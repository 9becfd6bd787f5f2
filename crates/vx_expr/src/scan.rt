//! Scans: queries that are planned once, and read no more of a batch than they ask for.
pub use vx_projection::{ColumnReader, PathReader, read_referenced};
pub use vx_scan::{ScanPlan, plan, plan_with, scan};
