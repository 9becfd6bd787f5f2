// Trees that are made from the leaves up.
use std::alloc::Global;
use vx_build::and_collect;
use vx_dtype::{FieldNames, Nullability};
use vx_tree::{
    CaseWhenOptions, Expression, FieldName, Operator, PackOptions, Scalar, ScalarFnRef,
    VortexError, VortexResult,
};

/// Trees that are being made: each function goes over the last ones, as many as it takes.
#[derive(Drop)]
pub struct Trees {
    made: Vec<Expression>,
}

impl Trees {
    /// No trees.
    pub fn new(alloc: Global) -> Trees {
        let made = Vec::new(alloc);
        Trees { made }
    }

    /// The function over the last trees.
    pub fn call(&mut self, alloc: Global, scalar_fn: ScalarFnRef) -> VortexResult<()> {
        let first = self.made.len().saturating_sub(scalar_fn.arity());
        let children = self.made.split_off(first)?;
        let tree = Expression::try_new(alloc, scalar_fn, children)?;
        self.made.push(tree)?;
        Ok(())
    }

    /// The scope's field of that name.
    pub fn field(&mut self, alloc: Global, name: FieldName) -> VortexResult<()> {
        self.made.push(Expression::Root)?;
        self.item(alloc, name)
    }

    /// The last tree's field of that name.
    pub fn item(&mut self, alloc: Global, name: FieldName) -> VortexResult<()> {
        self.call(alloc, ScalarFnRef::GetItem(name))
    }

    /// The scope's field whose name is that text.
    pub fn named(&mut self, alloc: Global, text: &str) -> VortexResult<()> {
        self.field(alloc, FieldName::new(alloc, text)?)
    }

    /// The scope's field `x`.
    pub fn x(&mut self, alloc: Global) -> VortexResult<()> {
        self.named(alloc, "x")
    }

    /// The scalar, whatever the row.
    pub fn literal(&mut self, alloc: Global, scalar: Scalar) -> VortexResult<()> {
        self.call(alloc, ScalarFnRef::Literal(scalar))
    }

    /// The number, whatever the row.
    pub fn number(&mut self, alloc: Global, n: i32) -> VortexResult<()> {
        self.literal(alloc, Scalar::from_i32(n))
    }

    /// The operator between the last two trees.
    pub fn binary(&mut self, alloc: Global, operator: Operator) -> VortexResult<()> {
        self.call(alloc, ScalarFnRef::Binary(operator))
    }

    /// The operator between the last tree and the number.
    pub fn with_number(&mut self, alloc: Global, operator: Operator, n: i32) -> VortexResult<()> {
        self.number(alloc, n)?;
        self.binary(alloc, operator)
    }

    /// `$.x` compared with the number.
    pub fn compared(&mut self, alloc: Global, operator: Operator, n: i32) -> VortexResult<()> {
        self.x(alloc)?;
        self.with_number(alloc, operator, n)
    }

    /// The CASE of the last trees: so many conditions, each before its value, and ELSE.
    pub fn case(&mut self, alloc: Global, num_when_then_pairs: u32) -> VortexResult<()> {
        let options = CaseWhenOptions {
            num_when_then_pairs,
            has_else: true,
        };
        self.call(alloc, ScalarFnRef::CaseWhen(options))
    }

    /// The struct of the last trees, by these names.
    pub fn pack(&mut self, alloc: Global, names: FieldNames) -> VortexResult<()> {
        let nullability = Nullability::NonNullable;
        self.call(alloc, ScalarFnRef::Pack(PackOptions { names, nullability }))
    }

    /// The last tree once more, which is shared.
    pub fn again(&mut self) -> VortexResult<()> {
        if let Some(last) = self.made.last() {
            let same = last.clone()?;
            self.made.push(same)?;
        }
        Ok(())
    }

    /// All trees joined by And, neighbours first; true where there is none.
    pub fn join(&mut self, alloc: Global) -> VortexResult<()> {
        let all = self.made.split_off(0)?;
        match and_collect(alloc, all)? {
            Some(joined) => Ok(self.made.push(joined)?),
            None => self.literal(alloc, Scalar::from_bool(true)),
        }
    }

    /// The last tree. Where none was made, the refusal is that of a function with too few children.
    pub fn last(mut self) -> VortexResult<Expression> {
        match self.made.pop() {
            Some(tree) => Ok(tree),
            None => Err(VortexError::ArityMismatch {
                expected: 1,
                got: 0,
            }),
        }
    }
}
