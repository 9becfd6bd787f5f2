// Laws of quoting, as functions without a body.
ghost use Rattle.vx_sql.specs.Laws.{NamesReadBack, CharactersReadBack, TextsReadBack, PatternsReadBack};

/// Each engine reads a quoted name back, whatever is in it but a backslash that says something of what is
/// behind it, with which no name is written, and goes on with what stands behind it: no
/// name ends early.
pub fn names_read_back()
    ensures { NamesReadBack }
{}

/// Each engine reads a quoted text back, whatever is in it, and goes on with what stands behind it: no
/// text ends early, and no pattern.
pub fn texts_read_back()
    ensures characters { CharactersReadBack }
    ensures whole { TextsReadBack }
{}

/// By LIKE, an engine reads of a pattern the parts that are written.
pub fn patterns_read_back()
    ensures { PatternsReadBack }
{}
