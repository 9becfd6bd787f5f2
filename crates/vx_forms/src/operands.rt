// What a child may be given as.
ghost use Rattle.std.specs.Prelude.{◌≡◌, IfOk, Ok, Result, length, map};
ghost use Rattle.vx_dtype.specs.declared.error.VortexError.{VortexError};
ghost use Rattle.vx_dtype.specs.Returns.{ReturnsOrOom};
ghost use Rattle.vx_forms.specs.Given.{all_seen, seen_as};

use std::alloc::Global;
use vx_tree::{BoundExpression, Expression, TreeNode, VortexResult};

/// What a child may be given as: a tree, one that is lent, or the answer of the call that makes it. So
/// a tree of many calls needs one `?`, at its end.
pub trait Operand<T: TreeNode>: Drop + Sized {
    /// The tree that this stands for, or the refusal of the call that was to make it.
    ghost given: { Self → Result T VortexError };

    /// The tree. Refuses as the call did, and with `OutOfMemory` (1).
    fn into_tree(self) -> VortexResult<T>
        ensures { ReturnsOrOom T.seen result (seen_as T.seen (given self)) };
}

impl Operand<Expression> for Expression {
    ghost given = { Ok };

    fn into_tree(self) -> VortexResult<Expression> {
        Ok(self)
    }
}

impl Operand<Expression> for &Expression {
    ghost given = { λ e. Ok e.now };

    fn into_tree(self) -> VortexResult<Expression> {
        Ok(self.clone()?)
    }
}

impl Operand<Expression> for VortexResult<Expression> {
    ghost given = { λ answer. answer };

    fn into_tree(self) -> VortexResult<Expression> {
        self
    }
}

impl Operand<BoundExpression> for BoundExpression {
    ghost given = { Ok };

    fn into_tree(self) -> VortexResult<BoundExpression> {
        Ok(self)
    }
}

impl Operand<BoundExpression> for &BoundExpression {
    ghost given = { λ b. Ok b.now };

    fn into_tree(self) -> VortexResult<BoundExpression> {
        Ok(self.clone()?)
    }
}

impl Operand<BoundExpression> for VortexResult<BoundExpression> {
    ghost given = { λ answer. answer };

    fn into_tree(self) -> VortexResult<BoundExpression> {
        self
    }
}

// The trees that the operands stand for, or the first refusal among them.
pub(crate) fn trees_given<T: TreeNode, O: Operand<T>>(
    alloc: Global,
    operands: Vec<O>,
) -> VortexResult<Vec<T>>
    ensures count { IfOk result (λ trees. length trees.items ≡ length operands.items) }
    ensures trees { ReturnsOrOom (λ trees. map T.seen trees.items) result (all_seen T.seen (map O.given operands.items)) }
{
    let mut trees = Vec::with_capacity(alloc, operands.len())?;
    for operand in operands {
        trees.push(operand.into_tree()?)?;
    }
    Ok(trees)
}
