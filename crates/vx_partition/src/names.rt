// The names of partitions, of which none may be taken twice.
ghost use Rattle.std.specs.Prelude.{◌≡◌};
ghost use Rattle.vx_value.specs.Returns.{ReturnsOrOom};
ghost use Rattle.vx_partition.specs.Collecting.{groups_in};
ghost use Rattle.vx_partition.specs.Partitioned.{free_names};
ghost use Rattle.vx_partition_laws.specs.Partitions.{partition_names};

use crate::groups::Groups;
use crate::key::PartitionKey;
use std::alloc::Global;
use std::collections::HashSet;
use vx_tree::{FieldNames, VortexError, VortexResult};

// The field name of each group, or the first that an earlier group has.
pub(crate) fn free_names<A: PartitionKey>(
    alloc: Global,
    groups: &Groups<A>,
) -> VortexResult<FieldNames>
    ensures { ReturnsOrOom (λ names. names) result (free_names (partition_names A.name (groups_in groups.now))) }
{
    let mut names = Vec::with_capacity(alloc, groups.len())?;
    let mut seen = HashSet::with_capacity(alloc, groups.len())?;
    for annotation in groups.keys() {
        let name = annotation.field_name(alloc)?;
        if !seen.insert(name.clone()?)? {
            return Err(VortexError::PartitionNameTaken(name));
        }
        names.push(name)?;
    }
    FieldNames::new(alloc, names)
}
