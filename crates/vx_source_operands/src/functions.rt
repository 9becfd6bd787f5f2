// Functions by their names.
ghost use Rattle.std.specs.Prelude.{◌≡◌, option_map};
ghost use Rattle.std.specs.Option.{is_some};
ghost use Rattle.vx_fn.specs.Views.{function_of};
ghost use Rattle.vx_source_grammar.specs.Keywords.{beside};
ghost use Rattle.vx_source_grammar.specs.OptionReading.{names_function, option_readers, plain_functions, takes_options};

use vx_dtype::FieldName;
use vx_fn::{EmptyOptions, ScalarFnRef};
use vx_source_types::is_word;

/// The function without options of that name.
pub fn plain_function(name: &FieldName) -> Option<ScalarFnRef>
    ensures { option_map function_of result ≡ beside plain_functions name.now }
{
    if is_word(name, "not") {
        Some(ScalarFnRef::Not(EmptyOptions))
    } else if is_word(name, "is_null") {
        Some(ScalarFnRef::IsNull(EmptyOptions))
    } else if is_word(name, "is_not_null") {
        Some(ScalarFnRef::IsNotNull(EmptyOptions))
    } else if is_word(name, "fill_null") {
        Some(ScalarFnRef::FillNull(EmptyOptions))
    } else if is_word(name, "mask") {
        Some(ScalarFnRef::Mask(EmptyOptions))
    } else if is_word(name, "zip") {
        Some(ScalarFnRef::Zip(EmptyOptions))
    } else if is_word(name, "starts_with") {
        Some(ScalarFnRef::StartsWith(EmptyOptions))
    } else if is_word(name, "byte_length") {
        Some(ScalarFnRef::ByteLength(EmptyOptions))
    } else if is_word(name, "list_contains") {
        Some(ScalarFnRef::ListContains(EmptyOptions))
    } else {
        None
    }
}

/// Whether a function has that name and options.
pub fn takes_options(name: &FieldName) -> bool
    ensures { result ≡ takes_options name.now }
{
    is_word(name, "literal") || is_word(name, "cast") || has_reader(name)
}

// Whether a function has that name and options that are neither a scalar nor a type.
fn has_reader(name: &FieldName) -> bool
    ensures { result ≡ is_some (beside option_readers name.now) }
{
    is_word(name, "get_item")
        || is_word(name, "pack")
        || is_word(name, "select")
        || is_word(name, "binary")
        || is_word(name, "like")
        || is_word(name, "between")
        || is_word(name, "case_when")
}

/// Whether a function has that name.
pub fn names_function(name: &FieldName) -> bool
    ensures { result ≡ names_function name.now }
{
    plain_function(name).is_some() || takes_options(name)
}
