// What a walk found at a node.

/// What becomes of a node where the pieces are taken out.
#[derive(Clone, Copy)]
pub(crate) enum Mark {
    /// It stays: no piece stands at it or below it.
    Kept,
    /// It is rebuilt: there are pieces below it.
    Above,
    /// It is a piece, and becomes the hole of that index of that group.
    Hole { group: usize, index: usize },
}
