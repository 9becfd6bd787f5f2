// The trees that are walked.
use std::alloc::Global;
use std::test::Fail;
use vx_test_support::{bound, expression};
use vx_tree::test_harness::struct_dtype;
use vx_tree::{BoundExpression, Expression, FieldName, GetItem};

/// A node that may be a field.
pub trait HasField {
    fn field(&self) -> Option<&FieldName>;
}

impl HasField for Expression {
    fn field(&self) -> Option<&FieldName> {
        self.as_opt::<GetItem>()
    }
}

impl HasField for BoundExpression {
    fn field(&self) -> Option<&FieldName> {
        self.as_opt::<GetItem>()
    }
}

/// `($.a and $.b)`
pub const BOTH: &str = "a and b";

/// `(($.col1 = $.col2) and ($.col3 != $.col4))`
pub const COMPARISONS: &str = "col1 = col2 and col3 != col4";

/// `$.bool1`, turned ten thousand times.
pub fn deep(alloc: Global) -> Result<Expression, Fail> {
    Ok(expression(alloc, "times(10000) not end bool1")?)
}

/// The tree of the text, bound to the type of the harness.
pub fn over_harness(alloc: Global, text: &str) -> Result<BoundExpression, Fail> {
    Ok(bound(alloc, text, &struct_dtype(alloc)?)?)
}
