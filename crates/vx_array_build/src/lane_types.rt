// Types whose rows lie in buffers of numbers.
ghost use Rattle.std.specs.Prelude.{◌≡◌};
ghost use Rattle.vx_value.specs.Types.{shape_of};
ghost use Rattle.vx_value.specs.Views.{type_of};
ghost use Rattle.vx_array_build.specs.Lanes.{lane_of};

use vx_dtype::{DType, PType};

/// The number type in whose buffers the rows of a type lie: of whole numbers their own, of days `I32`, of
/// instants `I64`. None where rows aren't kept as whole numbers.
pub fn lane_type(dtype: &DType) -> Option<PType>
    ensures { result ≡ lane_of (shape_of (type_of dtype.now)) }
{
    match dtype {
        DType::Primitive(ptype, _) => Some(*ptype),
        DType::Date(_) => Some(PType::I32),
        DType::Timestamp(_, _) => Some(PType::I64),
        DType::Bool(_)
        | DType::Float(_, _)
        | DType::Decimal(_, _)
        | DType::Utf8(_)
        | DType::Binary(_)
        | DType::List(_, _)
        | DType::FixedSizeList(_, _, _)
        | DType::Struct(_, _) => None,
    }
}
