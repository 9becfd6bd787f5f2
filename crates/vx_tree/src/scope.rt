// The scope that an expression is bound to.
ghost use Rattle.std.specs.Prelude.{◌≡◌};
ghost use Rattle.vx_value.specs.Views.{type_of};

use std::marker::Model;
use vx_dtype::DType;

/// The type of the rows that an expression reads.
#[derive(Debug, Drop)]
pub struct Scope {
    dtype: DType,
}

impl Model for Scope {
    ghost use Rattle.vx_value.specs.Codes.{type_code};
    ghost use Rattle.vx_value.specs.Types.{LogicalType};
    ghost use Rattle.vx_value.specs.Views.{type_of};

    ghost Value = { LogicalType };

    ghost coded = { type_code };

    ghost view = { λ s. type_of s.dtype };
}

impl Scope {
    /// The scope of rows of that type.
    pub fn new(dtype: DType) -> Scope
        ensures { result ≡ type_of dtype }
    {
        Scope { dtype }
    }

    /// The type of the rows.
    pub fn root(&self) -> &DType
        ensures { type_of result.now ≡ self.now }
    {
        &self.dtype
    }
}
