// The laws of types and of values.
pub use vx_dtype::laws::{
    fields_are_equal_exactly, name_lists_are_equal_exactly, names_are_equal_exactly,
    types_are_equal_exactly, union_is_the_narrowest_above_both,
};
pub use vx_value::laws::{
    columns_are_equal_exactly, first_misfit_is_the_first, joined_rows_are_the_columns_rows,
    scalars_are_equal_exactly, values_are_equal_exactly, values_stay_values_above,
};
