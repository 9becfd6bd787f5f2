// What programs in other languages call, as include/vx.h says it to them.
#![tactic(auto)]

mod kept;
mod pages;
mod plans;
mod rows;
