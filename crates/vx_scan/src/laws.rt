// Laws of faults, as functions without a body.
ghost use Rattle.vx_scan.specs.Alike.{NormalTreesFaultAlike};

/// Two batches of one length, which agree along the paths that a tree references, make it fault
/// alike where no standard rule fits at any of its nodes: with the same fault in the same row, or
/// not. Of another tree this may fail, since a selection of nothing hides the faults below it.
pub fn normal_trees_fault_alike()
    ensures { NormalTreesFaultAlike }
{}
