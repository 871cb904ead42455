// The written regions of a leaf, and its face file.
ghost use Rattle.std.specs.Prelude.{◌<◌, length};
ghost use Rattle.ember_visit.specs.Jobs.{IsJob};

use crate::scenes::{expression, scene_of_files};
use crate::texts::{TETRA, TETRA_TEXT};
use ember_expr::Expr;
use ember_job::Job;
use ember_leaf::{Kept, KeptList, leaf_faces};
use ember_model::{Face, OutOfMemory, Scene};
use ember_poly::{Ring, edges, of_tri, support};
use ember_reread::read_faces;
use ember_text::{document_of, text_of_faces};
use ember_visit::{listed_tris, root_job};
use std::alloc::Global;
use std::test::Fail;

// The regions of a job's box, as of a leaf.
fn regions(alloc: Global, s: &Scene, e: &Expr, job: &Job) -> Result<KeptList, OutOfMemory>
    requires { IsJob s.now.tris job.now }
{
    let near = listed_tris(alloc, s.tris.items(), job.list.items())?;
    leaf_faces(alloc, e, &job.cell, &near, &job.at)
}

// These are the four triangles, none of them flipped.
fn are_all_four(kept: &[Kept]) -> bool {
    let [first, second, third, fourth] = kept else {
        return false;
    };
    let places = (first.tri, second.tri, third.tri, fourth.tri);
    let flipped = first.flipped || second.flipped || third.flipped || fourth.flipped;
    places == (0, 1, 2, 3) && !flipped
}

#[test]
fn a_tetrahedron_is_written_whole(rt: HostRuntime) -> Result<(), Fail> {
    let alloc = rt.alloc();
    let scene = scene_of_files(alloc, &[TETRA])?;
    let e = expression(alloc, b"m1", 1)?;
    let job = root_job(alloc, &scene)?;
    let kept = regions(alloc, &scene, &e, &job)?;
    assert!(rt; are_all_four(kept.items()));
    let text = text_of_faces(alloc, kept.items())?;
    assert!(rt; text.count() == 4);
    let file = document_of(alloc, vec![in alloc; text]?)?;
    assert!(rt; file.as_slice() == TETRA_TEXT);
    Ok(())
}

fn ring_of(alloc: Global, s: &Scene, i: usize) -> Result<Option<Ring>, OutOfMemory>
    requires { i < length s.now.tris }
{
    of_tri(alloc, &s.tris.items()[i])
}

fn has_planes_of(ring: &Ring, face: &Face) -> bool {
    support(ring) == face.support && edges(ring) == face.edges.items()
}

#[test]
fn the_rings_of_a_tetrahedron_have_the_planes_of_its_face_file(
    rt: HostRuntime,
) -> Result<(), Fail> {
    let scene = scene_of_files(rt.alloc(), &[TETRA])?;
    assert!(rt; scene.tris.items().len() == 4);
    let Ok(faces) = read_faces(rt.alloc(), TETRA_TEXT) else {
        return Err(Fail::from("no face file"));
    };
    let faces = faces.items();
    assert!(rt; faces.len() == 4);
    for i in 0..4 {
        let Some(ring) = ring_of(rt.alloc(), &scene, i)? else {
            return Err(Fail::from("no ring"));
        };
        assert!(rt; has_planes_of(&ring, &faces[i]));
    }
    Ok(())
}
