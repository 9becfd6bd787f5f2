// Masks beside each other: which one is true.
ghost use Rattle.std.specs.Prelude.{◌≡◌, ◌<◌, ℕ, List, Bool, [], MatchOption, IfSome, true, false, length, get_or};
ghost use Rattle.vx_eval_masks.specs.Masks.{IsAll};
ghost use Rattle.vx_eval_masks.specs.Merges.{NoneAt};

use crate::mask::RowMask;

/// The place of a mask that is true at that row, if there is one. Asks a row that each mask has.
pub fn place_at(masks: &[RowMask], row: usize) -> Option<usize>
    requires rows { (j : ℕ) → j < length masks.now → row < length (get_or masks.now j []) }
    ensures { MatchOption result (NoneAt masks.now row) (λ place. (place < length masks.now) × (get_or (get_or masks.now place []) row false ≡ true)) }
{
    for place in 0..masks.len() {
        if masks[place].get(row) {
            return Some(place);
        }
    }
    None
}

/// The place of a mask that is true at each row, if there is one.
pub fn place_of_all(masks: &[RowMask]) -> Option<usize>
    ensures { IfSome result (λ place. (place < length masks.now) × IsAll (get_or masks.now place [])) }
{
    for place in 0..masks.len() {
        if masks[place].is_all() {
            return Some(place);
        }
    }
    None
}
