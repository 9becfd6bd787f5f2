// A run of the program, over any two writers.
#![tactic(auto)]

mod branches;
mod cases;
mod coalesce;
mod examples;
mod fused;
mod kleene;
mod laws;
mod pages;
mod row;
mod run;
mod scan;

pub use laws::{
    branches_is_normal_form, branches_page_is, cases_page_is, coalesce_page_is,
    fused_is_kleene_merged, fused_page_is, kleene_page_is, scan_page_is,
};
pub use row::Row;
pub use run::run_show;
pub use vx_query::run_query;
pub use vx_rewrite::Pass;
