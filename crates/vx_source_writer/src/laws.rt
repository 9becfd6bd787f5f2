// Laws of source text.
ghost use Rattle.vx_source_writer.specs.Plain.{PlainIsSql};

/// Where each node has its number of children, no CASE is without a pair, names are words, and literals are of types without
/// parts that aren't nullable, with no double quote in a text, the source text of a tree is its SQL text.
pub fn plain_is_sql()
    ensures { PlainIsSql }
{}
