// The trees of the queries.
use crate::fields::{names, numbered};
use crate::query::Query;
use crate::trees::Trees;
use std::alloc::Global;
use std::sync::Arc;
use vx_dtype::{DType, FieldName, Nullability, PType, VortexResult};
use vx_tree::{EmptyOptions, Expression, LikeOptions, Operator, Scalar, ScalarFnRef};
use vx_value::Value;

impl Query {
    /// The query as a tree.
    pub fn tree(self, alloc: Global) -> VortexResult<Expression> {
        let mut trees = Trees::new(alloc);
        self.make(alloc, &mut trees)?;
        trees.last()
    }

    // Makes the query's tree.
    fn make(self, alloc: Global, trees: &mut Trees) -> VortexResult<()> {
        match self {
            Query::Range => range(alloc, trees),
            Query::Case => case(alloc, trees),
            Query::Like => liked(alloc, trees),
            Query::Item => item(alloc, trees),
            Query::Wide => wide(alloc, trees),
            Query::CaseWithSum(_) => case_with_sum(alloc, trees),
            Query::CaseOfFields(_) => case_of_fields(alloc, trees),
            Query::Zip => zip(alloc, trees),
            Query::FillNull => fill_null(alloc, trees),
            Query::Sum => sum(alloc, trees),
            Query::IsNull => is_null(alloc, trees),
            Query::FourRanges => four_ranges(alloc, trees),
            Query::Pack => pack(alloc, trees),
            Query::Members(count) => members(alloc, trees, count),
        }
    }
}

fn range(alloc: Global, trees: &mut Trees) -> VortexResult<()> {
    trees.compared(alloc, Operator::Gte, 10)?;
    trees.compared(alloc, Operator::Lte, 500_000)?;
    trees.binary(alloc, Operator::And)
}

fn case(alloc: Global, trees: &mut Trees) -> VortexResult<()> {
    trees.compared(alloc, Operator::Gt, 0)?;
    trees.number(alloc, 10)?;
    trees.compared(alloc, Operator::Gt, 3)?;
    trees.number(alloc, 20)?;
    trees.number(alloc, 30)?;
    trees.case(alloc, 2)
}

fn liked(alloc: Global, trees: &mut Trees) -> VortexResult<()> {
    trees.named(alloc, "s")?;
    trees.literal(alloc, Scalar::utf8(alloc, "%b%d")?)?;
    let options = LikeOptions {
        negated: false,
        case_insensitive: false,
    };
    trees.call(alloc, ScalarFnRef::Like(options))
}

fn item(alloc: Global, trees: &mut Trees) -> VortexResult<()> {
    pack(alloc, trees)?;
    trees.item(alloc, FieldName::new(alloc, "b")?)
}

fn wide(alloc: Global, trees: &mut Trees) -> VortexResult<()> {
    trees.field(alloc, numbered(alloc, 7)?)?;
    trees.with_number(alloc, Operator::Gte, 10)?;
    trees.field(alloc, numbered(alloc, 42)?)?;
    trees.with_number(alloc, Operator::Lte, 500_000)?;
    trees.binary(alloc, Operator::And)
}

fn case_with_sum(alloc: Global, trees: &mut Trees) -> VortexResult<()> {
    values_by_key(alloc, trees)?;
    trees.named(alloc, "z")?;
    trees.with_number(alloc, Operator::Add, 1)?;
    trees.case(alloc, 2)
}

fn case_of_fields(alloc: Global, trees: &mut Trees) -> VortexResult<()> {
    values_by_key(alloc, trees)?;
    trees.named(alloc, "z")?;
    trees.case(alloc, 2)
}

// The conditions on the key, each before its value.
fn values_by_key(alloc: Global, trees: &mut Trees) -> VortexResult<()> {
    trees.named(alloc, "k")?;
    trees.with_number(alloc, Operator::Eq, 0)?;
    trees.x(alloc)?;
    trees.named(alloc, "k")?;
    trees.with_number(alloc, Operator::Eq, 1)?;
    trees.named(alloc, "y")
}

fn zip(alloc: Global, trees: &mut Trees) -> VortexResult<()> {
    trees.x(alloc)?;
    trees.named(alloc, "y")?;
    trees.named(alloc, "z")?;
    trees.with_number(alloc, Operator::Gte, 400_000)?;
    trees.call(alloc, ScalarFnRef::Zip(EmptyOptions))
}

fn fill_null(alloc: Global, trees: &mut Trees) -> VortexResult<()> {
    trees.x(alloc)?;
    trees.number(alloc, 5)?;
    trees.call(alloc, ScalarFnRef::FillNull(EmptyOptions))
}

fn sum(alloc: Global, trees: &mut Trees) -> VortexResult<()> {
    trees.x(alloc)?;
    trees.named(alloc, "y")?;
    trees.binary(alloc, Operator::Add)
}

fn is_null(alloc: Global, trees: &mut Trees) -> VortexResult<()> {
    trees.x(alloc)?;
    trees.call(alloc, ScalarFnRef::IsNull(EmptyOptions))
}

fn four_ranges(alloc: Global, trees: &mut Trees) -> VortexResult<()> {
    for i in 0..4 {
        trees.field(alloc, numbered(alloc, i)?)?;
        trees.with_number(alloc, Operator::Gte, -50_000)?;
        trees.field(alloc, numbered(alloc, i)?)?;
        trees.with_number(alloc, Operator::Lte, 850_000)?;
    }
    trees.join(alloc)
}

fn pack(alloc: Global, trees: &mut Trees) -> VortexResult<()> {
    trees.x(alloc)?;
    trees.named(alloc, "y")?;
    trees.named(alloc, "z")?;
    trees.pack(alloc, names(alloc, &["a", "b", "c"])?)
}

// The numbers are 997 apart, from -100,000 on.
fn members(alloc: Global, trees: &mut Trees, count: u16) -> VortexResult<()> {
    let mut numbers = Vec::new(alloc);
    for i in 0..count {
        numbers.push(Value::Int(997 * i128::from(i) - 100_000))?;
    }
    let number = DType::Primitive(PType::I32, Nullability::NonNullable);
    let list = DType::List(Arc::new(alloc, number)?, Nullability::NonNullable);
    trees.literal(alloc, Scalar::try_new(list, Value::List(numbers))?)?;
    trees.x(alloc)?;
    trees.call(alloc, ScalarFnRef::ListContains(EmptyOptions))
}
