// Texts that were read before their scope is known.
ghost use Rattle.std.specs.Prelude.{◌≡◌, ◌⊎◌, ℕ, List, IfOk, IfErr};
ghost use Rattle.vx_value.specs.Views.{type_of};
ghost use Rattle.vx_tree.specs.Trees.{Tree};
ghost use Rattle.vx_source_parser.specs.Placed.{StopsOpen, tree_in};
ghost use Rattle.vx_source_types.specs.declared.error.ParseError.TheVariants.{OutOfMemory as NoMemory};
ghost use Rattle.vx_tree.specs.Trees.{typed};
ghost use Rattle.vx_tree.specs.Views.{tree_of};
ghost use Rattle.vx_source_over.specs.Reading.{GivesOver, HasNoTypeAlone, IsReadOpen, IsUnread, IsWritten, ReadsOrRefuses, ReadsOver, RefusesOver, Settles};
ghost use Rattle.vx_source_over.specs.Settling.{read_over};
ghost use Rattle.vx_source_over.specs.declared.error.OverError.TheVariants.{OutOfMemory};
ghost use Rattle.std.specs.Result.{is_ok};

use crate::OverError;
use crate::peers::Beside;
use crate::settle::{Over, settle};
use std::alloc::Global;
use vx_dtype::{DType, VortexError};
use vx_source_parser::{Placed, Readings, parse_open, parse_with_places};
use vx_source_types::ParseError;
use vx_tree::Expression;

/// What was read of a text whose scope isn't known yet.
#[derive(Drop)]
pub enum Written<'t> {
    /// The expression as its literals are read alone. The text is read again where that has no type.
    Alone {
        /// The expression, and the bytes that its nodes were read from.
        placed: Placed,
        /// The text.
        text: &'t str,
        /// How deep it may be nested.
        limit: usize,
    },
    /// Else the two readings in which literals without a type have none of their own.
    Open(Readings),
}

/// What the text says, nested at most as deep as said, for [`over`]. Refuses a text that is no expression over any scope,
/// with the byte where reading stopped and what would have stood right there, and with `OutOfMemory`. Time is linear in the
/// text.
pub fn read_open(alloc: Global, text: &str, limit: usize) -> Result<Written<'_>, ParseError>
    ensures written { IfOk result (IsWritten limit text.now) }
    ensures read { IfOk result (λ _. IsReadOpen limit text.now) }
    ensures unread { IfErr result (λ e. (e ≡ NoMemory) ⊎ IsUnread limit text.now) }
    ensures stops { IfErr result (StopsOpen limit text.now) }
{
    match parse_with_places(alloc, text, limit) {
        Ok(placed) => Ok(Written::Alone {
            placed,
            text,
            limit,
        }),
        Err(ParseError::OutOfMemory) => Err(ParseError::OutOfMemory),
        Err(ParseError::Unexpected { .. }) => {
            let readings = parse_open(alloc, text, limit)?;
            Ok(Written::Open(readings))
        }
    }
}

/// The expression that was read, over a scope of that type: as its literals are read alone, if it has a type so; and else
/// each number, text or null that was written without a type takes that of what it stands beside. Literals with a type stay,
/// and nothing else changes.
///
/// Their values are those that are read before the type: beside a date `"2024-01-31"` is that day, as in
/// `"2024-01-31"::date`, and `"12.50"` beside a `decimal(10, 2)` is 1250 units. A number beside a decimal is that number, as
/// its text would be, and beside a floating-point number the nearest one.
///
/// They take it from the other side of a comparison, of arithmetic, `and` and `or`, of BETWEEN, of `in` and of `fill_null`,
/// and from the other branches of CASE, `if` and `zip`: from the first of these that has a type of its own, else from what is
/// around them. The items of `in` are then one list, if they are literals. Refuses one that is none of that type, with the
/// type, and one that needs a type and finds none, as `parse` does, and with `OutOfMemory`. Time is linear in the nodes.
pub fn over(alloc: Global, written: Written<'_>, scope: &DType) -> Result<Placed, OverError>
    ensures reads { (limit : ℕ) (text : List ℕ) → IsWritten limit text written.entry → IfOk result (λ p. ReadsOver limit text (type_of scope.now) (tree_in p)) }
    ensures refuses { (limit : ℕ) (text : List ℕ) → IsWritten limit text written.entry → IfErr result (RefusesOver limit text (type_of scope.now)) }
    ensures complete { (limit : ℕ) (text : List ℕ) (e : Tree) → IsWritten limit text written.entry → ReadsOver limit text (type_of scope.now) e → GivesOver tree_in result e }
{
    match written {
        Written::Alone {
            placed,
            text,
            limit,
        } => {
            if has_type(alloc, &placed.expression, scope)? {
                return Ok(placed);
            }
            drop(placed);
            open_over(alloc, text, limit, scope)
        }
        Written::Open(readings) => settle_readings(alloc, readings, scope),
    }
}

// Whether the tree has a type over the scope.
fn has_type(alloc: Global, e: &Expression, scope: &DType) -> Result<bool, OverError>
    ensures answer { IfOk result (λ b. b ≡ is_ok (typed (tree_of e.now) (type_of scope.now))) }
    ensures memory { IfErr result (λ e. e ≡ OutOfMemory) }
{
    match e.return_dtype(alloc, scope) {
        Ok(_) => Ok(true),
        Err(VortexError::OutOfMemory) => Err(OverError::OutOfMemory),
        Err(_) => Ok(false),
    }
}

// What the text says over the scope as its two readings, if there are.
fn open_over(alloc: Global, text: &str, limit: usize, scope: &DType) -> Result<Placed, OverError>
    ensures { HasNoTypeAlone limit text.now (type_of scope.now) → ReadsOrRefuses limit text.now (type_of scope.now) result }
{
    match parse_open(alloc, text, limit) {
        Ok(readings) => settle_readings(alloc, readings, scope),
        Err(error) => Err(OverError::from(error)),
    }
}

// The tree of the two readings.
fn settle_readings(alloc: Global, readings: Readings, scope: &DType) -> Result<Placed, OverError>
    ensures { Settles tree_in result (read_over (type_of scope.now) (tree_in readings.first) (tree_of readings.second)) }
{
    let Readings { first, second } = readings;
    let Placed { expression, places } = first;
    let beside = Beside {
        other: Some(&second),
        places: Some(&places),
    };
    let settled = settle(Over { alloc, scope }, &expression, beside, false, None)?;
    Ok(Placed {
        expression: settled.tree,
        places,
    })
}
