// Laws of source text, as functions without a body.
ghost use Rattle.vx_source_laws.specs.Laws.{EndStops, SourceIsReadAgain, NestingIsHeight};

/// Where a text ends, nothing more of an expression is read.
pub fn end_stops()
    ensures { EndStops }
{}

/// The source text of an expression is read as that expression, where as much nesting is allowed
/// as the text has.
pub fn source_is_read_again()
    ensures { SourceIsReadAgain }
{}

/// That is at least the expression's height, and at most one more than its height and the brackets
/// of its values and types.
pub fn nesting_is_height()
    ensures { NestingIsHeight }
{}
