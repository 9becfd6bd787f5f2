// The children of nodes that take any number of them, of either kind of tree.
ghost use Rattle.std.specs.Prelude.{◌≡◌, IfOk};
ghost use Rattle.vx_build.specs.Operands.{pair_operands, case_operands, pack_names, pack_operands};

use std::alloc::{AllocError, Global};
use vx_tree::FieldName;

/// Each condition and the value beside it, then the ELSE value, if there is one.
pub fn case_operands<T: Drop>(
    alloc: Global,
    pairs: Vec<(T, T)>,
    else_value: Option<T>,
) -> Result<Vec<T>, AllocError>
    ensures { IfOk result (λ operands. operands.items ≡ case_operands pairs.items else_value) }
{
    let mut operands = pair_operands(alloc, pairs)?;
    if let Some(value) = else_value {
        operands.push(value)?;
    }
    Ok(operands)
}

// Both of each pair.
fn pair_operands<T: Drop>(alloc: Global, pairs: Vec<(T, T)>) -> Result<Vec<T>, AllocError>
    ensures { IfOk result (λ operands. operands.items ≡ pair_operands pairs.items) }
{
    let mut operands = Vec::new(alloc);
    for (condition, value) in pairs {
        operands.push(condition)?;
        operands.push(value)?;
    }
    Ok(operands)
}

// The names and what stands beside them, apart.
pub(crate) fn unzip<T: Drop>(
    alloc: Global,
    elements: Vec<(FieldName, T)>,
) -> Result<(Vec<FieldName>, Vec<T>), AllocError>
    ensures names { IfOk result (λ apart. apart.0.items ≡ pack_names elements.items) }
    ensures operands { IfOk result (λ apart. apart.1.items ≡ pack_operands elements.items) }
{
    let mut names = Vec::with_capacity(alloc, elements.len())?;
    let mut operands = Vec::with_capacity(alloc, elements.len())?;
    for (name, operand) in elements {
        names.push(name)?;
        operands.push(operand)?;
    }
    Ok((names, operands))
}
