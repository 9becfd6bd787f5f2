// Laws of what is kept, as functions without a body.
ghost use Rattle.vx_projection.specs.Laws.{KeptRowsAgree, KeptRowsFit};

/// What is kept of the rows of a type are rows of the type, whatever the paths are.
pub fn kept_rows_fit()
    ensures { KeptRowsFit }
{}

/// Along paths that lead somewhere in the type, what is kept of rows agrees with these in every row.
pub fn kept_rows_agree()
    ensures { KeptRowsAgree }
{}
