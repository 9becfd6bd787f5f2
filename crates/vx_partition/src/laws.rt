// A law of partition names, as a function without a body.
ghost use Rattle.vx_partition.specs.Partitioned.{NamesAreFree};

/// Split by field names, no tree has two annotations with one field name: it is never refused with
/// `PartitionNameTaken` (17), and each partition's name is its annotation.
pub fn field_names_are_free()
    ensures { NamesAreFree }
{}
