// The work of one box of a lattice, and the text of its cells.
use crate::scenes::{expression, scene_of_files};
use crate::texts::TETRA;
use ember_box::{halves, root};
use ember_expr::Expr;
use ember_gen::scene_of;
use ember_job::Outcome;
use ember_model::{Axis, OutOfMemory, Scene};
use ember_visit::root_job;
use ember_voxel::{Fill, grid_text, voxel_step};
use std::alloc::Global;
use std::test::Fail;

// The root is the one cell, and it isn't lit.
fn is_dark(alloc: Global, s: &Scene, e: &Expr) -> Result<bool, OutOfMemory> {
    let job = root_job(alloc, s)?;
    let outcome = voxel_step(alloc, s, e, 12, &job)?;
    Ok(matches!(&outcome, Outcome::Leaf(fill) if !fill.bit))
}

#[test]
fn the_root_is_one_cell(rt: HostRuntime) -> Result<(), Fail> {
    let alloc = rt.alloc();
    let e = expression(alloc, b"m1", 1)?;
    assert!(rt; is_dark(alloc, &scene_of(alloc, 1)?, &e)?);
    assert!(rt; is_dark(alloc, &scene_of_files(alloc, &[TETRA])?, &e)?);
    Ok(())
}

#[test]
fn the_lower_half_is_lit(rt: HostRuntime) -> Result<(), Fail> {
    let alloc = rt.alloc();
    let (low, high) = halves(&root(), Axis::X);
    let fills = vec![in alloc;
        Fill {
            cell: low,
            bit: true
        },
        Fill {
            cell: high,
            bit: false
        },
    ]?;
    let text = grid_text(alloc, 11, fills.as_slice())?;
    assert!(rt; text.as_slice() == b"voxels 11 2\n10\n10\n10\n10\nend 4\n".as_slice());
    Ok(())
}
