// Nodes put in the place of others.
use crate::forms::shown::gives;
use std::alloc::Global;
use vx_forms::*;
use vx_tree::{Expression, GetItem, VortexResult};
use vx_walk::Transformed;

// The tree with 1 in the place of each outermost field.
fn numbered(
    alloc: Global,
    tree: VortexResult<Expression>,
) -> VortexResult<Transformed<Expression>> {
    replace_nodes(
        alloc,
        tree?,
        |node: &Expression| -> VortexResult<Option<Expression>> {
            match node.is::<GetItem>() {
                true => Ok(Some(lit(alloc, 1)?)),
                false => Ok(None),
            }
        },
    )
}

// The tree that was handed back, and whether it is said to be changed.
fn shown(alloc: Global, handed: VortexResult<Transformed<Expression>>) -> VortexResult<String> {
    let handed = handed?;
    let tree = &handed.value;
    let changed = handed.changed;
    Ok(format!(in alloc; "{tree}, changed: {changed}")?)
}

#[test]
fn fields_are_replaced(rt: HostRuntime) {
    let alloc = rt.alloc();
    gives(
        &rt,
        shown(
            alloc,
            numbered(alloc, not(alloc, eq(alloc, col(alloc, "a"), lit(alloc, 2)))),
        ),
        "vortex.not((1i32 = 2i32)), changed: true",
    );
    gives(
        &rt,
        shown(
            alloc,
            numbered(alloc, is_null(alloc, get_item(alloc, "b", col(alloc, "a")))),
        ),
        "vortex.is_null(1i32), changed: true",
    );
    gives(
        &rt,
        shown(alloc, numbered(alloc, col(alloc, "a"))),
        "1i32, changed: true",
    );
    gives(
        &rt,
        shown(alloc, numbered(alloc, is_null(alloc, root()))),
        "vortex.is_null($), changed: false",
    );
}
