// What each step of reading an expression goes by.
use std::alloc::Global;
use vx_source_types::Found;

/// Where reading stands: the token, how much more nesting is allowed there, and where memory is taken from.
#[derive(Clone, Copy)]
pub struct Context<'a> {
    /// The allocator.
    pub alloc: Global,
    /// How much more nesting is allowed.
    pub room: usize,
    /// The token that was found.
    pub found: &'a Found,
}
