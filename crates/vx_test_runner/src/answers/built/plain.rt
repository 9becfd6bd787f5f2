// The constructors of sources.
ghost use Rattle.std.specs.Prelude.{◌<◌, ◌^◌, length};

use super::constructors::{Constructors, Test};
use std::alloc::Global;
use vx_tree::{
    BetweenOptions, DType, Expression, FieldName, FieldNames, LikeOptions, Nullability, Operator,
    Scalar, VortexResult,
};

/// Those of sources.
#[derive(Clone, Copy)]
pub struct OfSources;

impl Constructors for OfSources {
    type Tree = Expression;

    fn root(&self) -> VortexResult<Expression> {
        Ok(vx_build::root())
    }

    fn item(&self, alloc: Global, name: FieldName, child: Expression) -> VortexResult<Expression> {
        if vx_build::is_root(&child) {
            drop(child);
            return vx_build::col(alloc, name);
        }
        vx_build::get_item(alloc, name, child)
    }

    fn lit(&self, alloc: Global, value: Scalar) -> VortexResult<Expression> {
        vx_build::lit(alloc, value)
    }

    fn pack(
        &self,
        alloc: Global,
        elements: Vec<(FieldName, Expression)>,
        nullability: Nullability,
    ) -> VortexResult<Expression> {
        vx_build::pack(alloc, elements, nullability)
    }

    fn select(
        &self,
        alloc: Global,
        excludes: bool,
        names: FieldNames,
        child: Expression,
    ) -> VortexResult<Expression> {
        if excludes {
            vx_build::select_exclude(alloc, names, child)
        } else {
            vx_build::select(alloc, names, child)
        }
    }

    fn cast(&self, alloc: Global, child: Expression, target: DType) -> VortexResult<Expression> {
        vx_build::cast(alloc, child, target)
    }

    fn test(&self, alloc: Global, test: Test, child: Expression) -> VortexResult<Expression> {
        match test {
            Test::Not => vx_build::not(alloc, child),
            Test::IsNull => vx_build::is_null(alloc, child),
            Test::IsNotNull => vx_build::is_not_null(alloc, child),
            Test::ByteLength => vx_build::byte_length(alloc, child),
        }
    }

    fn binary(
        &self,
        alloc: Global,
        operator: Operator,
        (lhs, rhs): (Expression, Expression),
    ) -> VortexResult<Expression> {
        vx_build::binary(alloc, operator, lhs, rhs)
    }

    fn operator(
        &self,
        alloc: Global,
        operator: Operator,
        (lhs, rhs): (Expression, Expression),
    ) -> VortexResult<Expression> {
        match operator {
            Operator::Eq => vx_build::eq(alloc, lhs, rhs),
            Operator::NotEq => vx_build::not_eq(alloc, lhs, rhs),
            Operator::Gt => vx_build::gt(alloc, lhs, rhs),
            Operator::Gte => vx_build::gt_eq(alloc, lhs, rhs),
            Operator::Lt => vx_build::lt(alloc, lhs, rhs),
            Operator::Lte => vx_build::lt_eq(alloc, lhs, rhs),
            Operator::And => vx_build::and(alloc, lhs, rhs),
            Operator::Or => vx_build::or(alloc, lhs, rhs),
            Operator::Add => vx_build::checked_add(alloc, lhs, rhs),
            Operator::Sub => vx_build::checked_sub(alloc, lhs, rhs),
            Operator::Mul => vx_build::checked_mul(alloc, lhs, rhs),
            Operator::Div => vx_build::checked_div(alloc, lhs, rhs),
            Operator::Rem => vx_build::checked_rem(alloc, lhs, rhs),
        }
    }

    fn fill_or_mask(
        &self,
        alloc: Global,
        fills: bool,
        first: Expression,
        second: Expression,
    ) -> VortexResult<Expression> {
        if fills {
            vx_build::fill_null(alloc, first, second)
        } else {
            vx_build::mask(alloc, first, second)
        }
    }

    fn like(
        &self,
        alloc: Global,
        options: LikeOptions,
        child: Expression,
        pattern: Expression,
    ) -> VortexResult<Expression> {
        match (options.negated, options.case_insensitive) {
            (false, false) => vx_build::like(alloc, child, pattern),
            (true, false) => vx_build::not_like(alloc, child, pattern),
            (false, true) => vx_build::ilike(alloc, child, pattern),
            (true, true) => vx_build::not_ilike(alloc, child, pattern),
        }
    }

    fn list_contains(
        &self,
        alloc: Global,
        list: Expression,
        value: Expression,
    ) -> VortexResult<Expression> {
        vx_build::list_contains(alloc, list, value)
    }

    fn starts_with(
        &self,
        alloc: Global,
        child: Expression,
        prefix: Expression,
    ) -> VortexResult<Expression> {
        vx_build::starts_with(alloc, child, prefix)
    }

    fn between(
        &self,
        alloc: Global,
        (child, lower, upper): (Expression, Expression, Expression),
        options: BetweenOptions,
    ) -> VortexResult<Expression> {
        vx_build::between(alloc, child, lower, upper, options)
    }

    fn zip_expr(
        &self,
        alloc: Global,
        (if_true, if_false, mask): (Expression, Expression, Expression),
    ) -> VortexResult<Expression> {
        vx_build::zip_expr(alloc, mask, if_true, if_false)
    }

    fn case_when(
        &self,
        alloc: Global,
        (condition, value, otherwise): (Expression, Expression, Expression),
    ) -> VortexResult<Expression> {
        vx_build::case_when(alloc, condition, value, otherwise)
    }

    fn case_when_no_else(
        &self,
        alloc: Global,
        (condition, value): (Expression, Expression),
    ) -> VortexResult<Expression> {
        vx_build::case_when_no_else(alloc, condition, value)
    }

    fn nested_case_when(
        &self,
        alloc: Global,
        pairs: Vec<(Expression, Expression)>,
        otherwise: Option<Expression>,
    ) -> VortexResult<Expression>
        requires some { 0 < length pairs.items }
        requires countable { length pairs.items < 2 ^ 32 }
    {
        vx_build::nested_case_when(alloc, pairs, otherwise)
    }

    fn joined(
        &self,
        alloc: Global,
        by_and: bool,
        items: Vec<Expression>,
    ) -> VortexResult<Option<Expression>> {
        if by_and {
            vx_build::and_collect(alloc, items)
        } else {
            vx_build::or_collect(alloc, items)
        }
    }

    fn again(&self, tree: &Expression) -> VortexResult<Expression> {
        Ok(tree.clone()?)
    }
}
