// What is open around the operand that is being read.
ghost use Rattle.std.specs.Prelude.{◌≡◌, List, nat_le, MatchOption};
ghost use Rattle.vx_fn.specs.Views.{operation_of};
ghost use Rattle.vx_tree.specs.Trees.{Tree};
ghost use Rattle.vx_source_grammar.specs.Joining.{level_of};
ghost use Rattle.vx_source_grammar.specs.States.{in_binary, in_chain};
ghost use Rattle.vx_source_operands.specs.Levels.{rank_of};
ghost use Rattle.vx_source_operands.specs.OperandViews.{frame_of};

use crate::operand::Operand;
use crate::plain::PlainValues;
use vx_dtype::FieldName;
use vx_fn::{LikeOptions, Operator, ScalarFnRef, StrictComparison};

/// A bracket that is open: where it begins, and how much nesting is allowed outside it.
#[derive(Clone, Copy)]
pub struct Bracket {
    /// The first byte of what the bracket belongs to.
    pub start: usize,
    /// The nesting that is allowed outside.
    pub room: usize,
}

/// What a call is of.
#[derive(Drop)]
pub enum Callee {
    /// A function with its options, over as many children as it takes.
    Own(ScalarFnRef),
    /// A function with its options, over any number of children.
    Any(ScalarFnRef),
    /// A CASE of one condition, its value and the ELSE value.
    If,
}

/// What a CASE waits for behind its operand.
#[derive(Clone, Copy)]
pub enum CasePart {
    /// A condition.
    Condition,
    /// The value of a condition.
    Value,
    /// The ELSE value.
    Else,
}

/// A value and its lower bound, where the upper one is due.
#[derive(Drop)]
pub struct OpenRange {
    /// The value.
    pub array: Operand,
    /// Its lower bound.
    pub lower: Operand,
    /// Whether the lower bound itself is left out.
    pub lower_strict: StrictComparison,
    /// Whether the upper bound itself is left out.
    pub upper_strict: StrictComparison,
    /// The first byte of both.
    pub start: usize,
}

/// What is open: an operator that waits for its last operand, or a bracket.
#[derive(Drop)]
pub enum Frame {
    /// `or` or `and` between the items.
    Chain(Operator, Vec<Operand>),
    /// `not`, which begins at that byte.
    Not(usize),
    /// A `-` before an operand, and the zero that the operand is taken from.
    Minus(Operand),
    /// A comparison or arithmetic behind the left operand.
    Binary(Operator, Operand),
    /// `like` behind its text.
    Like(LikeOptions, Operand),
    /// `between` behind its operand: the lower bound is due.
    Lower(Operand),
    /// A value and its lower bound: the upper bound is due. Behind a pointer, so that frames, which move at each token, stay
    /// small.
    Upper(Box<OpenRange>),
    /// `(`
    Paren(Bracket),
    /// `in (` behind its operand, with the items so far, and how values are read there that no type follows.
    Members(PlainValues, Box<Operand>, Vec<Operand>, Bracket),
    /// A call's children.
    Call(Box<Callee>, Vec<Operand>, Bracket),
    /// `pack(`, with the names and the operands so far.
    Pack(Vec<FieldName>, Vec<Operand>, Bracket),
    /// `cast(`
    Cast(Bracket),
    /// `case`, with the conditions and values so far.
    Case(CasePart, Vec<Operand>, Bracket),
}

/// How tightly operators bind, the loosest first.
#[derive(Clone, Copy, PartialEq, Eq)]
pub enum Level {
    /// `or`
    Or,
    /// `and`
    And,
    /// `not`
    Not,
    /// Comparisons, LIKE and ranges.
    Comparison,
    /// `+` and `-`
    Sum,
    /// `*`, `/` and `%`
    Product,
    /// `-` before an operand.
    Minus,
}

impl Level {
    fn rank(self) -> u8
        ensures { result ≡ rank_of self }
    {
        match self {
            Level::Or => 1,
            Level::And => 2,
            Level::Not => 3,
            Level::Comparison => 4,
            Level::Sum => 5,
            Level::Product => 6,
            Level::Minus => 7,
        }
    }
}

// How tightly an operator binds: in a chain, where all but `or` is read like `and`, and between two
// operands.
#[derive(Clone, Copy)]
struct Levels {
    in_chain: Level,
    between: Level,
}

fn levels_of(operator: Operator) -> Levels
    ensures chain { (items : List Tree) → level_of (in_chain (operation_of operator) items) ≡ rank_of result.in_chain }
    ensures between { (lhs : Tree) → level_of (in_binary (operation_of operator) lhs) ≡ rank_of result.between }
{
    match operator {
        Operator::Or => Levels {
            in_chain: Level::Or,
            between: Level::Comparison,
        },
        Operator::And
        | Operator::Eq
        | Operator::NotEq
        | Operator::Gt
        | Operator::Gte
        | Operator::Lt
        | Operator::Lte => Levels {
            in_chain: Level::And,
            between: Level::Comparison,
        },
        Operator::Add | Operator::Sub => Levels {
            in_chain: Level::And,
            between: Level::Sum,
        },
        Operator::Mul | Operator::Div | Operator::Rem => Levels {
            in_chain: Level::And,
            between: Level::Product,
        },
    }
}

impl Frame {
    /// Whether this waits for its last operand, and binds at least as tightly as the level.
    pub fn binds_at(&self, level: Level) -> bool
        ensures { result ≡ nat_le (rank_of level) (level_of (frame_of self.now)) }
    {
        match self.level() {
            Some(own) => own.rank() >= level.rank(),
            None => false,
        }
    }

    // How tightly what waits for its last operand binds; None of a bracket, and of what waits for more.
    fn level(&self) -> Option<Level>
        ensures { MatchOption result (level_of (frame_of self.now) ≡ 0) (λ own. level_of (frame_of self.now) ≡ rank_of own) }
    {
        match self {
            Frame::Chain(operator, _) => Some(levels_of(*operator).in_chain),
            Frame::Not(_) => Some(Level::Not),
            Frame::Minus(_) => Some(Level::Minus),
            Frame::Binary(operator, _) => Some(levels_of(*operator).between),
            Frame::Like(_, _) | Frame::Upper(_) => Some(Level::Comparison),
            Frame::Lower(_)
            | Frame::Paren(_)
            | Frame::Members(_, _, _, _)
            | Frame::Call(_, _, _)
            | Frame::Pack(_, _, _)
            | Frame::Cast(_)
            | Frame::Case(_, _, _) => None,
        }
    }
}
