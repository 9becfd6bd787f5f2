// Truth values in a slice: the work of masks.
ghost use Rattle.std.specs.Prelude.{◌≡◌, ◌↔◌, ◌<◌, ◌≤◌, ℕ, Ok, IsTrue, MatchOption, true, false, ◌&&◌, not, length, get_or};
ghost use Rattle.vx_dtype.specs.Returns.{ReturnsOrOom};
ghost use Rattle.vx_eval_masks.specs.Masks.{true_rows, count_true, runs, up_to, IsAll, IsNextRun, IsRunFrom, NoneFrom, both, but};

use std::alloc::Global;
use vx_dtype::VortexResult;

/// How many of them are true.
pub fn count(bits: &[bool]) -> usize
    ensures { result ≡ count_true bits.now }
{
    let mut n = 0;
    for i in 0..bits.len() {
        if bits[i] {
            n += 1;
        }
    }
    n
}

/// Whether all of them are true.
pub fn is_all(bits: &[bool]) -> bool
    ensures { IsTrue result ↔ IsAll bits.now }
{
    for i in 0..bits.len() {
        if !bits[i] {
            return false;
        }
    }
    true
}

/// The place behind the run that begins at that true place or goes on there.
pub fn run_end(bits: &[bool], start: usize) -> usize
    requires within { start < length bits.now }
    requires here { get_or bits.now start false ≡ true }
    ensures { IsRunFrom bits.now start result }
{
    for i in start + 1..bits.len() {
        if !bits[i] {
            return i;
        }
    }
    bits.len()
}

/// All runs.
pub fn runs(alloc: Global, bits: &[bool]) -> VortexResult<Vec<(usize, usize)>>
    ensures { ReturnsOrOom (λ v. v.items) result (Ok (runs bits.now)) }
{
    let mut found = Vec::new(alloc);
    let mut i = 0;
    while let Some(run) = next_run(bits, i) {
        found.push(run)?;
        i = run.1;
    }
    Ok(found)
}

/// The number of runs, if it is at most that.
#[tactic(auto, using(crate::proofs::MaskRuns::too_many))]
pub fn runs_within(bits: &[bool], most: usize) -> Option<usize>
    ensures { result ≡ up_to most (length (runs bits.now)) }
{
    let mut n = 0;
    let mut i = 0;
    while let Some(run) = next_run(bits, i) {
        if n == most {
            return None;
        }
        n += 1;
        i = run.1;
    }
    Some(n)
}

// The first run at or after that place, before which no run goes on.
fn next_run(bits: &[bool], from: usize) -> Option<(usize, usize)>
    ensures { MatchOption result (NoneFrom bits.now from) (λ run. IsNextRun bits.now from run.0 run.1) }
{
    let start = first_true(bits, from);
    if start < bits.len() {
        Some((start, run_end(bits, start)))
    } else {
        None
    }
}

// The first true place at or after that place, or no place.
fn first_true(bits: &[bool], from: usize) -> usize
    ensures low { from ≤ length bits.now → from ≤ result }
    ensures off { (k : ℕ) → from ≤ k → k < result → get_or bits.now k false ≡ false }
    ensures here { result < length bits.now → (from ≤ result) × (get_or bits.now result false ≡ true) }
{
    for i in from..bits.len() {
        if bits[i] {
            return i;
        }
    }
    bits.len()
}

/// The true places.
pub fn indices(alloc: Global, bits: &[bool]) -> VortexResult<Vec<usize>>
    ensures { ReturnsOrOom (λ v. v.items) result (Ok (true_rows bits.now)) }
{
    let mut found = Vec::new(alloc);
    for i in 0..bits.len() {
        if !bits[i] {
            continue;
        }
        found.push(i)?;
    }
    Ok(found)
}

/// Whether both are true, place by place.
#[tactic(auto, using(crate::proofs::Pairs::both_pushed, crate::proofs::Pairs::both_ended))]
pub fn and(alloc: Global, bits: &[bool], others: &[bool]) -> VortexResult<Vec<bool>>
    requires { length others.now ≡ length bits.now }
    ensures { ReturnsOrOom (λ v. v.items) result (Ok (both bits.now others.now)) }
{
    let mut made = Vec::with_capacity(alloc, bits.len())?;
    for i in 0..bits.len() {
        made.push(is_both(bits[i], others[i]))?;
    }
    Ok(made)
}

/// Whether the first is true and the other isn't, place by place.
#[tactic(auto, using(crate::proofs::Pairs::but_pushed, crate::proofs::Pairs::but_ended))]
pub fn and_not(alloc: Global, bits: &[bool], others: &[bool]) -> VortexResult<Vec<bool>>
    requires { length others.now ≡ length bits.now }
    ensures { ReturnsOrOom (λ v. v.items) result (Ok (but bits.now others.now)) }
{
    let mut made = Vec::with_capacity(alloc, bits.len())?;
    for i in 0..bits.len() {
        made.push(is_but(bits[i], others[i]))?;
    }
    Ok(made)
}

/// Lets those be true that the rest has, too, and takes them out of it.
pub fn claim(bits: &mut [bool], rest: &mut [bool])
    requires { length rest.old ≡ length bits.old }
    ensures claimed { bits.new ≡ both bits.old rest.old }
    ensures left { rest.new ≡ but rest.old bits.old }
{
    for i in 0..bits.len() {
        let wanted = bits[i];
        let open = rest[i];
        bits[i] = is_both(wanted, open);
        rest[i] = is_but(open, wanted);
    }
}

// Whether both are true.
#[inline]
fn is_both(a: bool, b: bool) -> bool
    ensures { result ≡ (a && b) }
{
    a && b
}

// Whether the first is true and the other isn't.
#[inline]
fn is_but(a: bool, b: bool) -> bool
    ensures { result ≡ (a && not b) }
{
    a && !b
}
