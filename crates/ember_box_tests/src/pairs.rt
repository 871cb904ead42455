// Pairs of triangles that meet: of one plane, of a tetrahedron with itself, and of two wedges.
ghost use Rattle.std.specs.Prelude.{◌≤◌, length};

use crate::scenes::scene_of_files;
use crate::texts::{TETRA, WEDGE_A, WEDGE_B};
use ember_job::Outcome;
use ember_model::{OutOfMemory, Scene};
use ember_pairs::{PairList, gather, meeting, pair_step, pairs_text, root_pairs};
use std::alloc::Global;
use std::process::Abort;
use std::test::Fail;

#[test]
fn equal_triangles_meet_and_neighbours_do_not(rt: HostRuntime) -> Result<(), Fail> {
    let alloc = rt.alloc();
    let scene = scene_of_files(alloc, &[TETRA, TETRA])?;
    assert!(rt; scene.tris.items().len() == 8);
    assert!(rt; meeting(alloc, &scene, 0, 4)?);
    assert!(rt; !meeting(alloc, &scene, 0, 5)?);
    Ok(())
}

// Files of one triangle with its reverse.
const LEFT: &[u8] = b"v 0 0 0\nv 8 0 0\nv 0 8 0\nf 1 2 3\nf 1 3 2\n";

const RIGHT: &[u8] = b"v 8 0 0\nv 8 8 0\nv 0 8 0\nf 1 2 3\nf 1 3 2\n";

const LOW: &[u8] = b"v 0 0 0\nv 8 0 0\nv 8 8 0\nf 1 2 3\nf 1 3 2\n";

const SMALL: &[u8] = b"v 1 1 0\nv 2 1 0\nv 1 2 0\nf 1 2 3\nf 1 3 2\n";

const RAISED: &[u8] = b"v 1 1 1\nv 2 1 1\nv 1 2 1\nf 1 2 3\nf 1 3 2\n";

const BEYOND: &[u8] = b"v 8 8 0\nv 8 1 0\nv 1 8 0\nf 1 2 3\nf 1 3 2\n";

const CORNER: &[u8] = b"v 8 0 0\nv 16 0 0\nv 8 8 0\nf 1 2 3\nf 1 3 2\n";

const UP: &[u8] = b"v 0 0 0\nv 12 0 0\nv 6 9 0\nf 1 2 3\nf 1 3 2\n";

const DOWN: &[u8] = b"v 0 6 0\nv 6 -3 0\nv 12 6 0\nf 1 2 3\nf 1 3 2\n";

const LARGE: &[u8] = b"v 0 0 0\nv 2000 0 0\nv 0 2000 0\nf 1 2 3\nf 1 3 2\n";

const SLIVER: &[u8] = b"v 2000 2000 0\nv 0 1999 0\nv 1999 0 0\nf 1 2 3\nf 1 3 2\n";

const ALONG: &[u8] = b"v 0 0 0\nv 2000 1 0\nv 2000 -1 0\nf 1 2 3\nf 1 3 2\n";

const ACROSS: &[u8] = b"v 1100 -900 0\nv 1101 900 0\nv 1099 900 0\nf 1 2 3\nf 1 3 2\n";

const PIERCING: &[u8] = b"v 1 1 5\nv 2 1 5\nv 20 7 -5\nf 1 2 3\nf 1 3 2\n";

const LEANING: &[u8] = b"v 0 0 0\nv 8 0 8\nv 0 8 0\nf 1 2 3\nf 1 3 2\n";

const WITHIN: &[u8] = b"v 1 1 1\nv 2 1 2\nv 1 2 1\nf 1 2 3\nf 1 3 2\n";

// Whether the triangles of two such files meet, by each of them and its reverse, in both orders; none
// if these differ.
fn meet_alike(alloc: Global, s: &Scene) -> Result<Option<bool>, OutOfMemory> {
    if s.tris.items().len() != 4 {
        return Ok(None);
    }
    let first = meeting(alloc, s, 0, 2)?;
    let same = meeting(alloc, s, 2, 0)? == first
        && meeting(alloc, s, 0, 3)? == first
        && meeting(alloc, s, 2, 1)? == first;
    Ok(if same { Some(first) } else { None })
}

fn meet(alloc: Global, one: &[u8], other: &[u8]) -> Result<Option<bool>, Fail> {
    let scene = scene_of_files(alloc, &[one, other])?;
    Ok(meet_alike(alloc, &scene)?)
}

static TRIANGLES_OF_ONE_PLANE_AND_OF_TWO: [(&[u8], &[u8], bool); 12] = [
    (LEFT, LEFT, true),
    // one within the other
    (LEFT, SMALL, true),
    (LEANING, WITHIN, true),
    // six corners of a star
    (UP, DOWN, true),
    // a sliver in common, along an edge and in the middle
    (LARGE, SLIVER, true),
    (ALONG, ACROSS, true),
    // one edge in common: on the same side, and on two sides
    (LEFT, LOW, true),
    (LEFT, RIGHT, false),
    // one corner in common, and none
    (LEFT, CORNER, false),
    (LEFT, BEYOND, false),
    // in a parallel plane, and through the plane beside the triangle
    (LEFT, RAISED, false),
    (LEFT, PIERCING, false),
];

#[test]
fn triangles_of_one_plane_and_of_two(rt: HostRuntime) -> Result<(), Fail> {
    for &(one, other, want) in &TRIANGLES_OF_ONE_PLANE_AND_OF_TWO {
        assert!(rt; meet(rt.alloc(), one, other)? == Some(want));
    }
    Ok(())
}

// The pairs that meet at the root, which is a leaf.
fn root_item(alloc: Global, s: &Scene) -> Result<PairList, Fail> {
    let root = root_pairs(alloc, s)?;
    match pair_step(alloc, s, &root)? {
        Outcome::Leaf(pairs) => Ok(pairs),
        _ => Err(Fail::from("no leaf")),
    }
}

// The text of the pairs of the files' triangles, found twice.
fn check(rt: &impl Abort, alloc: Global, files: &[&[u8]], want: &[u8]) -> Result<(), Fail>
    requires { length files.now ≤ 64 }
{
    let scene = scene_of_files(alloc, files)?;
    let items = vec![in alloc; root_item(alloc, &scene)?, root_item(alloc, &scene)?]?;
    let pairs = gather(alloc, items)?;
    assert!(rt; pairs_text(alloc, pairs.items())?.as_slice() == want);
    Ok(())
}

#[test]
fn a_tetrahedron_meets_itself_face_by_face(rt: HostRuntime) -> Result<(), Fail> {
    let want = b"pairs\np 0 4\np 1 5\np 2 6\np 3 7\nend 4\n";
    check(&rt, rt.alloc(), &[TETRA, TETRA], want)
}

#[test]
fn two_wedges_meet_in_seven_pairs(rt: HostRuntime) -> Result<(), Fail> {
    let want = b"pairs\np 0 4\np 0 6\np 1 5\np 1 6\np 3 4\np 3 5\np 3 6\nend 7\n";
    check(&rt, rt.alloc(), &[WEDGE_A, WEDGE_B], want)
}
