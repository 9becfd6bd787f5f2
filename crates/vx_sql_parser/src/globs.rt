// The patterns of GLOB.
ghost use Rattle.std.specs.Prelude.{◌≡◌, ◌&&◌, ◌<◌, ◌≤◌, Bool, IfOk, MatchOption, length, option_map, string_bytes};
ghost use Rattle.vx_sql_parser.specs.Globs as globs;
ghost use Rattle.vx_sql_parser.specs.Views.{items_in};

use crate::patterns::{as_source, is_sign, put};
use std::alloc::{AllocError, Global};

// The pattern as source text has it, with the case of letters ignored or not; none where brackets say something else.
pub(crate) fn glob_source(
    alloc: Global,
    ignores: bool,
    pattern: &str,
) -> Result<Option<String>, AllocError>
    ensures { IfOk result (λ p. option_map (λ s. string_bytes s) p ≡ globs.glob_source ignores pattern.now) }
{
    let made = globbed(alloc, ignores, pattern.as_bytes())?;
    as_source(alloc, made)
}

#[tactic(auto, using(crate::proofs::PatternsSpelled::behind_behind))]
fn globbed(alloc: Global, ignores: bool, pattern: &[u8]) -> Result<Option<Vec<u8>>, AllocError>
    ensures { IfOk result (λ p. option_map items_in p ≡ globs.globbed ignores pattern.now) }
{
    let mut made = Vec::new(alloc);
    let mut rest = pattern;
    while !rest.is_empty() {
        let Some((escaped, c, behind)) = first_part(ignores, rest) else {
            return Ok(None);
        };
        put(&mut made, escaped, c)?;
        rest = behind;
    }
    Ok(Some(made))
}

// A character of source text, behind a backslash or not, that a part is written as, and what follows the part.
type Part<'a> = Option<(bool, u8, &'a [u8])>;

// The first part of a pattern that has one.
fn first_part(ignores: bool, pattern: &[u8]) -> Part<'_>
    requires { 0 < length pattern.now }
    ensures part { globs.globbed ignores pattern.now ≡ globs.part_of ignores (option_map (λ p. (p.0, p.1, p.2.now)) result) }
    ensures shorter { MatchOption result (Unit {0}) (λ p. length p.2.now < length pattern.now) }
{
    let Some((c, rest)) = pattern.split_first() else {
        return None;
    };
    match *c {
        b'[' => bracketed(ignores, rest),
        b'*' => Some((false, b'%', rest)),
        b'?' => Some((false, b'_', rest)),
        c => just(ignores, c, rest),
    }
}

// The part behind an opening bracket.
fn bracketed(ignores: bool, pattern: &[u8]) -> Part<'_>
    ensures part { globs.bracketed ignores pattern.now ≡ globs.part_of ignores (option_map (λ p. (p.0, p.1, p.2.now)) result) }
    ensures shorter { MatchOption result (Unit {0}) (λ p. length p.2.now ≤ length pattern.now) }
{
    let Some((c, rest)) = pattern.split_first() else {
        return None;
    };
    let Some((d, rest)) = rest.split_first() else {
        return None;
    };
    if *d != b']' {
        return paired(is_pair(ignores, *c, *d), *c, rest);
    }
    if *c == b'^' {
        None
    } else {
        just(ignores, *c, rest)
    }
}

// The closing bracket behind a small letter and its capital, if they are these.
fn paired(are: bool, c: u8, pattern: &[u8]) -> Part<'_>
    ensures part { (ignores : Bool) → globs.paired ignores are c pattern.now ≡ globs.part_of ignores (option_map (λ p. (p.0, p.1, p.2.now)) result) }
    ensures shorter { MatchOption result (Unit {0}) (λ p. length p.2.now ≤ length pattern.now) }
{
    match pattern.split_first() {
        Some((b']', rest)) if are => Some((false, c, rest)),
        _ => None,
    }
}

// A character that stands for itself, and what follows.
fn just(ignores: bool, c: u8, rest: &[u8]) -> Part<'_>
    ensures part { globs.just ignores c (globs.globbed ignores rest.now) ≡ globs.part_of ignores (option_map (λ p. (p.0, p.1, p.2.now)) result) }
    ensures rest { MatchOption result (Unit {0}) (λ p. p.2.now ≡ rest.now) }
{
    if ignores && c.is_ascii_alphabetic() {
        None
    } else {
        Some((is_sign(c), c, rest))
    }
}

// Whether these are a small letter of ASCII and its capital, where the case is ignored.
fn is_pair(ignores: bool, c: u8, d: u8) -> bool
    ensures { result ≡ (ignores && globs.is_pair c d) }
{
    ignores && (c.is_ascii_lowercase() && d == c.to_ascii_uppercase())
}
