// The constructors over bound children.
ghost use Rattle.std.specs.Prelude.{◌<◌, ◌^◌, length};

use super::constructors::{Constructors, Test};
use std::alloc::Global;
use vx_build::bound as build;
use vx_tree::{
    BetweenOptions, BoundExpression, DType, FieldName, FieldNames, LikeOptions, Nullability,
    Operator, Scalar, VortexResult,
};

/// Those of bound trees, whose scope root has this type.
#[derive(Clone, Copy)]
pub struct OfBound<'a> {
    pub scope: &'a DType,
}

impl Constructors for OfBound<'_> {
    type Tree = BoundExpression;

    fn root(&self) -> VortexResult<BoundExpression> {
        Ok(build::root(self.scope.clone()?))
    }

    fn item(
        &self,
        alloc: Global,
        name: FieldName,
        child: BoundExpression,
    ) -> VortexResult<BoundExpression> {
        if child.is_root() {
            drop(child);
            return build::col(alloc, name, self.scope.clone()?);
        }
        build::get_item(alloc, name, child)
    }

    fn lit(&self, alloc: Global, value: Scalar) -> VortexResult<BoundExpression> {
        build::lit(alloc, value)
    }

    fn pack(
        &self,
        alloc: Global,
        elements: Vec<(FieldName, BoundExpression)>,
        nullability: Nullability,
    ) -> VortexResult<BoundExpression> {
        build::pack(alloc, elements, nullability)
    }

    fn select(
        &self,
        alloc: Global,
        excludes: bool,
        names: FieldNames,
        child: BoundExpression,
    ) -> VortexResult<BoundExpression> {
        if excludes {
            build::select_exclude(alloc, names, child)
        } else {
            build::select(alloc, names, child)
        }
    }

    fn cast(
        &self,
        alloc: Global,
        child: BoundExpression,
        target: DType,
    ) -> VortexResult<BoundExpression> {
        build::cast(alloc, child, target)
    }

    fn test(
        &self,
        alloc: Global,
        test: Test,
        child: BoundExpression,
    ) -> VortexResult<BoundExpression> {
        match test {
            Test::Not => build::not(alloc, child),
            Test::IsNull => build::is_null(alloc, child),
            Test::IsNotNull => build::is_not_null(alloc, child),
            Test::ByteLength => build::byte_length(alloc, child),
        }
    }

    fn binary(
        &self,
        alloc: Global,
        operator: Operator,
        (lhs, rhs): (BoundExpression, BoundExpression),
    ) -> VortexResult<BoundExpression> {
        build::binary(alloc, operator, lhs, rhs)
    }

    fn operator(
        &self,
        alloc: Global,
        operator: Operator,
        (lhs, rhs): (BoundExpression, BoundExpression),
    ) -> VortexResult<BoundExpression> {
        match operator {
            Operator::Eq => build::eq(alloc, lhs, rhs),
            Operator::NotEq => build::not_eq(alloc, lhs, rhs),
            Operator::Gt => build::gt(alloc, lhs, rhs),
            Operator::Gte => build::gt_eq(alloc, lhs, rhs),
            Operator::Lt => build::lt(alloc, lhs, rhs),
            Operator::Lte => build::lt_eq(alloc, lhs, rhs),
            Operator::And => build::and(alloc, lhs, rhs),
            Operator::Or => build::or(alloc, lhs, rhs),
            Operator::Add => build::checked_add(alloc, lhs, rhs),
            Operator::Sub => build::checked_sub(alloc, lhs, rhs),
            Operator::Mul => build::checked_mul(alloc, lhs, rhs),
            Operator::Div => build::checked_div(alloc, lhs, rhs),
            Operator::Rem => build::checked_rem(alloc, lhs, rhs),
        }
    }

    fn fill_or_mask(
        &self,
        alloc: Global,
        fills: bool,
        first: BoundExpression,
        second: BoundExpression,
    ) -> VortexResult<BoundExpression> {
        if fills {
            build::fill_null(alloc, first, second)
        } else {
            build::mask(alloc, first, second)
        }
    }

    fn like(
        &self,
        alloc: Global,
        options: LikeOptions,
        child: BoundExpression,
        pattern: BoundExpression,
    ) -> VortexResult<BoundExpression> {
        match (options.negated, options.case_insensitive) {
            (false, false) => build::like(alloc, child, pattern),
            (true, false) => build::not_like(alloc, child, pattern),
            (false, true) => build::ilike(alloc, child, pattern),
            (true, true) => build::not_ilike(alloc, child, pattern),
        }
    }

    fn list_contains(
        &self,
        alloc: Global,
        list: BoundExpression,
        value: BoundExpression,
    ) -> VortexResult<BoundExpression> {
        build::list_contains(alloc, list, value)
    }

    fn starts_with(
        &self,
        alloc: Global,
        child: BoundExpression,
        prefix: BoundExpression,
    ) -> VortexResult<BoundExpression> {
        build::starts_with(alloc, child, prefix)
    }

    fn between(
        &self,
        alloc: Global,
        (child, lower, upper): (BoundExpression, BoundExpression, BoundExpression),
        options: BetweenOptions,
    ) -> VortexResult<BoundExpression> {
        build::between(alloc, child, lower, upper, options)
    }

    fn zip_expr(
        &self,
        alloc: Global,
        (if_true, if_false, mask): (BoundExpression, BoundExpression, BoundExpression),
    ) -> VortexResult<BoundExpression> {
        build::zip_expr(alloc, mask, if_true, if_false)
    }

    fn case_when(
        &self,
        alloc: Global,
        (condition, value, otherwise): (BoundExpression, BoundExpression, BoundExpression),
    ) -> VortexResult<BoundExpression> {
        build::case_when(alloc, condition, value, otherwise)
    }

    fn case_when_no_else(
        &self,
        alloc: Global,
        (condition, value): (BoundExpression, BoundExpression),
    ) -> VortexResult<BoundExpression> {
        build::case_when_no_else(alloc, condition, value)
    }

    fn nested_case_when(
        &self,
        alloc: Global,
        pairs: Vec<(BoundExpression, BoundExpression)>,
        otherwise: Option<BoundExpression>,
    ) -> VortexResult<BoundExpression>
        requires some { 0 < length pairs.items }
        requires countable { length pairs.items < 2 ^ 32 }
    {
        build::nested_case_when(alloc, pairs, otherwise)
    }

    fn joined(
        &self,
        alloc: Global,
        by_and: bool,
        items: Vec<BoundExpression>,
    ) -> VortexResult<Option<BoundExpression>> {
        if by_and {
            build::and_collect(alloc, items)
        } else {
            build::or_collect(alloc, items)
        }
    }

    fn again(&self, tree: &BoundExpression) -> VortexResult<BoundExpression> {
        Ok(tree.clone()?)
    }
}
