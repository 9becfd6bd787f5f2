// What the words of masks mean.
ghost use Rattle.std.specs.Prelude.{◌≡◌, ℕ, ◌<◌, List, Bool, true, false, get_or, length};
ghost use Rattle.vx_eval_masks.specs.Masks.{runs, AreRuns};

/// The runs of a mask are its maximal true stretches, in order.
pub fn runs_are_the_maximal_stretches()
    ensures { (m : List Bool) → AreRuns m (runs m) }
{}
