// Nodes by the constructor of their function, for any set of constructors.
ghost use Rattle.std.specs.Prelude.{◌<◌, ◌^◌, length};

use super::children::{cases, named, one, three, two};
use std::alloc::Global;
use vx_tree::{
    BetweenOptions, DType, FieldName, FieldNames, FieldSelection, LikeOptions, Nullability,
    Operator, Scalar, ScalarFnRef, VortexError, VortexResult,
};

// The most pairs that a CASE may have.
const MOST_PAIRS: usize = 0xffff_ffff;

/// The functions of one child that have no options.
#[derive(Clone, Copy)]
pub enum Test {
    Not,
    IsNull,
    IsNotNull,
    ByteLength,
}

/// A set of constructors, by the names that they have.
pub trait Constructors {
    type Tree: Drop + PartialEq;

    fn root(&self) -> VortexResult<Self::Tree>;

    /// By `col` where the child is the scope root, else by `get_item`.
    fn item(&self, alloc: Global, name: FieldName, child: Self::Tree) -> VortexResult<Self::Tree>;

    fn lit(&self, alloc: Global, value: Scalar) -> VortexResult<Self::Tree>;

    fn pack(
        &self,
        alloc: Global,
        elements: Vec<(FieldName, Self::Tree)>,
        nullability: Nullability,
    ) -> VortexResult<Self::Tree>;

    /// By `select`, or by `select_exclude`.
    fn select(
        &self,
        alloc: Global,
        excludes: bool,
        names: FieldNames,
        child: Self::Tree,
    ) -> VortexResult<Self::Tree>;

    fn cast(&self, alloc: Global, child: Self::Tree, target: DType) -> VortexResult<Self::Tree>;

    /// By `not`, `is_null`, `is_not_null` or `byte_length`.
    fn test(&self, alloc: Global, test: Test, child: Self::Tree) -> VortexResult<Self::Tree>;

    fn binary(
        &self,
        alloc: Global,
        operator: Operator,
        children: (Self::Tree, Self::Tree),
    ) -> VortexResult<Self::Tree>;

    /// By the operator's own constructor.
    fn operator(
        &self,
        alloc: Global,
        operator: Operator,
        children: (Self::Tree, Self::Tree),
    ) -> VortexResult<Self::Tree>;

    /// By `fill_null`, or by `mask`.
    fn fill_or_mask(
        &self,
        alloc: Global,
        fills: bool,
        first: Self::Tree,
        second: Self::Tree,
    ) -> VortexResult<Self::Tree>;

    /// By `like`, `not_like`, `ilike` or `not_ilike`.
    fn like(
        &self,
        alloc: Global,
        options: LikeOptions,
        child: Self::Tree,
        pattern: Self::Tree,
    ) -> VortexResult<Self::Tree>;

    fn list_contains(
        &self,
        alloc: Global,
        list: Self::Tree,
        value: Self::Tree,
    ) -> VortexResult<Self::Tree>;

    fn starts_with(
        &self,
        alloc: Global,
        child: Self::Tree,
        prefix: Self::Tree,
    ) -> VortexResult<Self::Tree>;

    fn between(
        &self,
        alloc: Global,
        children: (Self::Tree, Self::Tree, Self::Tree),
        options: BetweenOptions,
    ) -> VortexResult<Self::Tree>;

    fn zip_expr(
        &self,
        alloc: Global,
        children: (Self::Tree, Self::Tree, Self::Tree),
    ) -> VortexResult<Self::Tree>;

    fn case_when(
        &self,
        alloc: Global,
        children: (Self::Tree, Self::Tree, Self::Tree),
    ) -> VortexResult<Self::Tree>;

    fn case_when_no_else(
        &self,
        alloc: Global,
        children: (Self::Tree, Self::Tree),
    ) -> VortexResult<Self::Tree>;

    /// Asks for at least one pair, and for fewer than 2^32.
    fn nested_case_when(
        &self,
        alloc: Global,
        pairs: Vec<(Self::Tree, Self::Tree)>,
        otherwise: Option<Self::Tree>,
    ) -> VortexResult<Self::Tree>
        requires some { 0 < length pairs.items }
        requires countable { length pairs.items < 2 ^ 32 };

    /// By `and_collect`, or by `or_collect`.
    fn joined(
        &self,
        alloc: Global,
        by_and: bool,
        items: Vec<Self::Tree>,
    ) -> VortexResult<Option<Self::Tree>>;

    fn again(&self, tree: &Self::Tree) -> VortexResult<Self::Tree>;
}

/// The node of the function by its constructor.
pub fn node<C: Constructors>(
    alloc: Global,
    by: &C,
    scalar_fn: &ScalarFnRef,
    children: Vec<C::Tree>,
) -> VortexResult<C::Tree> {
    match scalar_fn {
        ScalarFnRef::GetItem(name) => by.item(alloc, name.clone()?, one(children)?),
        ScalarFnRef::Literal(scalar) => by.lit(alloc, scalar.clone()?),
        ScalarFnRef::Pack(options) => {
            let elements = named(alloc, &options.names, children)?;
            by.pack(alloc, elements, options.nullability)
        }
        ScalarFnRef::Select(selection) => selected(alloc, by, selection, one(children)?),
        ScalarFnRef::Cast(target) => by.cast(alloc, one(children)?, target.clone()?),
        ScalarFnRef::Not(_) => by.test(alloc, Test::Not, one(children)?),
        ScalarFnRef::IsNull(_) => by.test(alloc, Test::IsNull, one(children)?),
        ScalarFnRef::IsNotNull(_) => by.test(alloc, Test::IsNotNull, one(children)?),
        ScalarFnRef::CaseWhen(options) => chosen(alloc, by, options.has_else, children),
        ScalarFnRef::Between(options) => by.between(alloc, three(children)?, *options),
        ScalarFnRef::Zip(_) => by.zip_expr(alloc, three(children)?),
        ScalarFnRef::Binary(operator) => compared(alloc, by, *operator, two(children)?),
        ScalarFnRef::FillNull(_) => filled(alloc, by, true, two(children)?),
        ScalarFnRef::Mask(_) => filled(alloc, by, false, two(children)?),
        ScalarFnRef::Like(options) => {
            let (child, pattern) = two(children)?;
            by.like(alloc, *options, child, pattern)
        }
        ScalarFnRef::ListContains(_) => {
            let (list, value) = two(children)?;
            by.list_contains(alloc, list, value)
        }
        ScalarFnRef::StartsWith(_) => {
            let (child, prefix) = two(children)?;
            by.starts_with(alloc, child, prefix)
        }
        ScalarFnRef::ByteLength(_) => by.test(alloc, Test::ByteLength, one(children)?),
    }
}

fn filled<C: Constructors>(
    alloc: Global,
    by: &C,
    fills: bool,
    (first, second): (C::Tree, C::Tree),
) -> VortexResult<C::Tree> {
    by.fill_or_mask(alloc, fills, first, second)
}

fn selected<C: Constructors>(
    alloc: Global,
    by: &C,
    selection: &FieldSelection,
    child: C::Tree,
) -> VortexResult<C::Tree> {
    match selection {
        FieldSelection::Include(names) => by.select(alloc, false, names.clone()?, child),
        FieldSelection::Exclude(names) => by.select(alloc, true, names.clone()?, child),
    }
}

// By the operator's own constructor, whose tree `binary` has to give, too.
fn compared<C: Constructors>(
    alloc: Global,
    by: &C,
    operator: Operator,
    (lhs, rhs): (C::Tree, C::Tree),
) -> VortexResult<C::Tree> {
    let again = by.binary(alloc, operator, (by.again(&lhs)?, by.again(&rhs)?))?;
    let own = by.operator(alloc, operator, (lhs, rhs))?;
    same(own, again)
}

// A CASE of one pair by its own constructor, whose tree `nested_case_when` has to give, too.
fn chosen<C: Constructors>(
    alloc: Global,
    by: &C,
    has_else: bool,
    children: Vec<C::Tree>,
) -> VortexResult<C::Tree> {
    let mut again = Vec::new(alloc);
    for child in children.iter() {
        again.push(by.again(child)?)?;
    }
    let (pairs, otherwise) = cases(alloc, has_else, again)?;
    if pairs.is_empty() || pairs.len() > MOST_PAIRS {
        return Err(VortexError::NoPairs);
    }
    let nested = by.nested_case_when(alloc, pairs, otherwise)?;
    match (children.len(), has_else) {
        (3, true) => same(by.case_when(alloc, three(children)?)?, nested),
        (2, false) => same(by.case_when_no_else(alloc, two(children)?)?, nested),
        _ => Ok(nested),
    }
}

// The tree, which two constructors give; `LengthMismatch` where they give two.
fn same<T: PartialEq + Drop>(own: T, again: T) -> VortexResult<T> {
    if own != again {
        return Err(VortexError::LengthMismatch);
    }
    Ok(own)
}
