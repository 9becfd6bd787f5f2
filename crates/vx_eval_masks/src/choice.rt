// How masks are gone over.
ghost use Rattle.std.specs.Prelude.{◌≡◌, ◌<◌, true, false, get_or, Ok, Option, List, Bool, length, map, nat_le, if◌then◌else◌};
ghost use Rattle.vx_eval_masks.specs.Masks.{runs};
ghost use Rattle.vx_eval_masks.specs.declared.choice.Merging.TheVariants.{Runs, Compact};
ghost use Rattle.vx_eval_masks.specs.Choices.{IsLimit, prefers_runs, run_limit, left_of, masks_in};

use crate::bits;
use crate::mask::RowMask;
use vx_dtype::VortexResult;
use vx_value::Column;

/// How the true rows of a mask are gone over: each run as a whole, its end being looked for
/// first, or one row after another.
#[derive(Clone, Copy, Debug, PartialEq, Eq)]
pub enum Merging {
    Runs,
    Compact,
}

impl Merging {
    // How far the run of true rows at that row can go: of runs to its end, which is looked for, else
    // to the last row.
    #[inline]
    pub(crate) fn limit(self, bits: &[bool], from: usize) -> usize
        requires within { from < length bits.now }
        requires here { get_or bits.now from false ≡ true }
        ensures { IsLimit self bits.now from result }
    {
        match self {
            Merging::Runs => bits::run_end(bits, from),
            Merging::Compact => bits.len(),
        }
    }

    // Whether the run goes on at that row below its limit, of which runs are sure.
    #[inline]
    pub(crate) fn goes_on(self, bits: &[bool], i: usize) -> bool
        requires within { i < length bits.now }
        requires sure { self ≡ Runs → get_or bits.now i false ≡ true }
        ensures { result ≡ get_or bits.now i false }
    {
        match self {
            Merging::Runs => true,
            Merging::Compact => bits[i],
        }
    }
}

/// Whether all masks together have at most as many runs as there are branches, or as a 256th of
/// the rows. Takes no memory.
pub fn prefer_runs(branches: &[(RowMask, Column)], row_count: usize) -> VortexResult<bool>
    ensures { result ≡ Ok (prefers_runs (masks_in branches.now) row_count) }
{
    let mut left = run_limit(branches.len(), row_count);
    for branch in branches {
        match spend(&branch.0, left) {
            Some(rest) => left = rest,
            None => return Ok(false),
        }
    }
    Ok(true)
}

/// `Runs` where `prefer_runs` would be true of branches with these masks, else `Compact`. Takes no
/// memory.
pub fn preferred(masks: &[RowMask], row_count: usize) -> Merging
    ensures { result ≡ (if prefers_runs masks.now row_count then Runs else Compact) }
{
    let mut left = run_limit(masks.len(), row_count);
    for mask in masks {
        match spend(mask, left) {
            Some(rest) => left = rest,
            None => return Merging::Compact,
        }
    }
    Merging::Runs
}

// How many runs there may be.
fn run_limit(branches: usize, row_count: usize) -> usize
    ensures { result ≡ run_limit branches row_count }
{
    branches.max(row_count / 256)
}

// What is left of so many runs beside those of the mask, if it has no more.
fn spend(mask: &RowMask, left: usize) -> Option<usize>
    ensures { result ≡ left_of left (length (runs mask.now)) }
{
    match mask.runs_within(left) {
        Some(spent) => Some(left - spent),
        None => None,
    }
}
