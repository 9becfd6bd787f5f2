// Laws of records, as functions without a body.
ghost use Rattle.vx_records.specs.Laws.{FewerNeverFault};

/// A well-typed tree that faults nowhere on all records together never faults where fewer of them are
/// taken together.
pub fn fewer_never_fault()
    ensures { FewerNeverFault }
{}
