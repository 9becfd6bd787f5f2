// Laws of reading, as functions without a body.
ghost use Rattle.vx_sql_parser.specs.Laws.{WrittenDaysAreRead, WrittenDecimalsAreRead, WrittenFloatTypesAreRead, WrittenFloatsAreRead, WrittenInstantTypesAreRead, WrittenInstantsAreRead, WrittenNamesAreRead, WrittenNumbersAreRead, WrittenTextsAreRead, WrittenTypesAreRead};

/// Each name that `vx_sql` writes for an engine is read back, whatever is in it, and what stands behind
/// it is no part of it.
pub fn written_names_are_read()
    ensures { WrittenNamesAreRead }
{}

/// So is each text.
pub fn written_texts_are_read()
    ensures { WrittenTextsAreRead }
{}

/// So are the digits of a number, whose casts are read by `written_types_are_read`.
pub fn written_numbers_are_read()
    ensures { WrittenNumbersAreRead }
{}

/// The words of PostgreSQL, DuckDB and ClickHouse for the types of numbers are read as the narrowest type that has their numbers,
/// and those of each engine for floating-point numbers and instants as the same type, a zone as UTC.
pub fn written_types_are_read()
    ensures numbers { WrittenTypesAreRead }
    ensures floats { WrittenFloatTypesAreRead }
    ensures instants { WrittenInstantTypesAreRead }
{}

/// Each day that `vx_sql` writes is read as its text before the type of days, in each engine that has days.
pub fn written_days_are_read()
    ensures { WrittenDaysAreRead }
{}

/// Each decimal of at most 38 digits that `vx_sql` writes is read as its text before its type, in each engine
/// that has decimals.
pub fn written_decimals_are_read()
    ensures { WrittenDecimalsAreRead }
{}

/// Each floating-point number that `vx_sql` writes is read as its text before its type, which is that number, in each engine
/// that has ours.
pub fn written_floats_are_read()
    ensures { WrittenFloatsAreRead }
{}

/// Each instant of the years 1 to 9999 that `vx_sql` writes is read as its text before its type, a zone as UTC, in each engine
/// that has such instants.
pub fn written_instants_are_read()
    ensures { WrittenInstantsAreRead }
{}
