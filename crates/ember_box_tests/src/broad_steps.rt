// Boxes of a Boolean on the broad grid, over triangles that are on the narrow grid, too.
ghost use Rattle.std.specs.Prelude.{◌^◌, IfOk};
ghost use Rattle.ember_visit.specs.Jobs.{IsJobOn};

use crate::scenes::{expression, scene_of_files};
use crate::texts::{APART, TETRA};
use ember_expr::Expr;
use ember_job::{Job, Outcome};
use ember_model::{Face, OutOfMemory, Scene};
use ember_step::{faces_step, outlines_step, root_job};
use ember_visit::{halve_unless_leaf_among, root_job_among};
use ember_width::Broad;
use std::alloc::Global;
use std::test::Fail;

// The job of the root.
fn broad_root(alloc: Global, s: &Scene) -> Result<Job, OutOfMemory>
    ensures { IfOk result (λ job. IsJobOn 8 (2 ^ 43) s.now.tris job) }
{
    root_job_among::<Broad>(alloc, s.tris.items())
}

// The faces that the root gives, if it is a leaf.
fn broad_faces(alloc: Global, s: &Scene, e: &Expr) -> Result<Vec<Face>, OutOfMemory> {
    let job = broad_root(alloc, s)?;
    match outlines_step::<Broad>(alloc, s.tris.items(), e, &job)? {
        Outcome::Leaf(faces) => Ok(faces.into_vec()),
        _ => Ok(Vec::new(alloc)),
    }
}

// The same on the narrow grid.
fn narrow_faces(alloc: Global, s: &Scene, e: &Expr) -> Result<Vec<Face>, OutOfMemory> {
    let job = root_job(alloc, s)?;
    match faces_step(alloc, s, e, &job)? {
        Outcome::Leaf(faces) => Ok(faces.into_vec()),
        _ => Ok(Vec::new(alloc)),
    }
}

fn are_same(one: &Face, other: &Face) -> bool {
    one.support == other.support && one.edges.items() == other.edges.items()
}

#[test]
fn a_tetrahedron_has_the_same_faces_on_both_grids(rt: HostRuntime) -> Result<(), Fail> {
    let alloc = rt.alloc();
    let scene = scene_of_files(alloc, &[TETRA])?;
    let e = expression(alloc, b"m1", 1)?;
    let broad = broad_faces(alloc, &scene, &e)?;
    let narrow = narrow_faces(alloc, &scene, &e)?;
    assert!(rt; broad.len() == 4 && narrow.len() == 4);
    for i in 0..4 {
        assert!(rt; are_same(&broad[i], &narrow[i]), "face {i}");
    }
    Ok(())
}

// The jobs of the halves of the root, unless it is a leaf.
fn halves_of_root(alloc: Global, s: &Scene) -> Result<Option<(Job, Job)>, OutOfMemory> {
    let job = broad_root(alloc, s)?;
    halve_unless_leaf_among::<Broad>(alloc, s.tris.items(), &job)
}

#[test]
fn the_root_of_the_broad_grid_is_halved(rt: HostRuntime) -> Result<(), Fail> {
    let alloc = rt.alloc();
    let scene = scene_of_files(alloc, &[APART, APART, APART, APART, APART])?;
    let Some((low, high)) = halves_of_root(alloc, &scene)? else {
        return Err(Fail::from("a leaf"));
    };
    assert!(rt; (low.cell.path(), high.cell.path()) == (2, 3));
    assert!(rt; low.list.items() == [2, 3, 6, 7, 10, 11, 14, 15, 18, 19].as_slice());
    assert!(rt; high.list.items() == [0, 1, 4, 5, 8, 9, 12, 13, 16, 17].as_slice());
    assert!(rt; low.at == high.at);
    Ok(())
}
