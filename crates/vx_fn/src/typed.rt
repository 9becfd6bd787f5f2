// What has a type.
ghost use Rattle.std.specs.Prelude.{◌≡◌};
ghost use Rattle.vx_value.specs.Types.{LogicalType};
ghost use Rattle.vx_value.specs.Views.{type_of};

use vx_dtype::DType;

/// What has a type: a type itself, or a node of a bound tree.
pub trait Typed {
    /// What the type stands for.
    ghost dtype_of: { Self → LogicalType };

    /// The type.
    fn as_dtype(&self) -> &DType
        ensures { type_of result.now ≡ dtype_of self.now };
}

impl Typed for DType {
    ghost dtype_of = { type_of };

    fn as_dtype(&self) -> &DType {
        self
    }
}
