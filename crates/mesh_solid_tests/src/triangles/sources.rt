// From which triangles of a scene triangles come: of a table, and of solids.
ghost use Rattle.std.specs.Prelude.{All};
ghost use Rattle.ember_model.specs.Valid.{IsValidCorner, IsValidPlane, IsValidTri};

use crate::triangles::cuts::{plane, thirds};
use crate::triangles::solids::{HIGH_BOX, LOW_BOX, scene_of, solid_of};
use ember_model::{Corner, OutOfMemory, Scene, Tri};
use mesh_certificate::{Segment, Triangle};
use mesh_solid::SolidRun;
use mesh_sources::{Source, sources_of};
use std::alloc::Global;
use std::test::Fail;

fn corner(at: [i8; 3]) -> Corner
    ensures { IsValidCorner result }
{
    Corner {
        x: i32::from(at[0]),
        y: i32::from(at[1]),
        z: i32::from(at[2]),
    }
}

// The triangle of mesh 1 with these corners.
fn tri(corners: [[i8; 3]; 3]) -> Tri
    ensures { IsValidTri result }
{
    Tri {
        a: corner(corners[0]),
        b: corner(corners[1]),
        c: corner(corners[2]),
        mesh: 1,
    }
}

// The points of the table, in thirds.
static POINTS: [[i32; 3]; 20] = [
    [0, 0, 0],
    [3, 0, 0],
    [4, 1, 0],
    [18, 3, 0],
    [21, 3, 0],
    [20, 14, 0],
    [0, 24, 0],
    [-24, 24, 0],
    [30, 15, 0],
    [33, 15, 0],
    [34, 17, 0],
    [3, 0, 3],
    [0, 3, 3],
    [0, 0, 3],
    [312, 3, 0],
    [321, 3, 0],
    [320, 8, 0],
    [24, 24, 0],
    [24, 0, 0],
    [15, 0, 0],
];

fn segment(plane: u32, start: u32, end: u32) -> Segment {
    Segment {
        plane,
        line: 0,
        start,
        end,
    }
}

// The triangle with these numbers of a plane and of three points.
fn triangle(numbers: [u32; 4]) -> Triangle {
    let [plane, u, v, w] = numbers;
    Triangle {
        first: segment(plane, u, v),
        second: segment(plane, v, w),
        third: segment(plane, w, u),
    }
}

// Triangles by the numbers of their planes and points, with their sources.
static TRIANGLES: [([u32; 4], Option<(u32, bool, bool)>); 13] = [
    // Within a triangle of the scene, and the same with its back up.
    ([0, 0, 1, 2], Some((0, false, false))),
    ([1, 0, 2, 1], Some((0, true, false))),
    // Over two triangles of one side, and over one that faces the other way.
    ([0, 1, 18, 6], Some((0, false, true))),
    ([0, 3, 4, 5], Some((0, false, true))),
    ([0, 0, 18, 17], Some((0, false, true))),
    // Only over the one that faces the other way.
    ([0, 8, 9, 10], Some((2, true, false))),
    // Beside an edge.
    ([0, 0, 6, 7], None),
    // In a slanted plane, and in a plane without triangles.
    ([2, 0, 11, 12], Some((4, false, false))),
    ([3, 13, 11, 12], None),
    // Far away.
    ([0, 14, 15, 16], Some((5, false, false))),
    // Not to the front of its plane, without area, and with a number that leads nowhere.
    ([1, 0, 1, 2], None),
    ([0, 1, 18, 19], None),
    ([0, 0, 1, 99], None),
];

// The sources of the table's triangles. Triangles 0 and 1 of the scene are a square that faces up, 2 faces down over
// part of it, 3 has no area, 4 is slanted, and 5 is far away.
fn table_sources(alloc: Global) -> Result<Vec<Option<Source>>, OutOfMemory> {
    let scene = [
        tri([[0, 0, 0], [8, 0, 0], [8, 8, 0]]),
        tri([[0, 0, 0], [8, 8, 0], [0, 8, 0]]),
        tri([[4, 4, 0], [12, 12, 0], [12, 4, 0]]),
        tri([[0, 0, 0], [4, 0, 0], [8, 0, 0]]),
        tri([[0, 0, 0], [8, 0, 8], [0, 8, 8]]),
        tri([[100, 0, 0], [108, 0, 0], [108, 8, 0]]),
    ];
    let planes = [
        plane([0, 0, 1, 0]),
        plane([0, 0, -7, 0]),
        plane([-2, -2, 2, 0]),
        plane([0, 0, 1, 1]),
    ];
    let mut points = Vec::new(alloc);
    for &[x, y, z] in &POINTS {
        points.push(thirds(x, y, z))?;
    }
    let mut triangles = Vec::new(alloc);
    for (numbers, _) in &TRIANGLES {
        triangles.push(triangle(*numbers))?;
    }
    sources_of(alloc, &scene, &points, &planes, &triangles)
}

fn numbers_of(source: Option<Source>) -> Option<(u32, bool, bool)> {
    let source = source?;
    Some((source.triangle, source.turned, source.several))
}

#[test]
fn sources_of_a_table(rt: HostRuntime) -> Result<(), Fail> {
    let sources = table_sources(rt.alloc())?;
    assert!(rt; sources.len() == TRIANGLES.len());
    for i in 0..TRIANGLES.len() {
        assert!(rt; numbers_of(sources[i]) == TRIANGLES[i].1);
    }
    Ok(())
}

// A prism that takes an edge off the low box.
const WEDGE: &[u8] = b"v 5 -1 12\nv 12 -1 12\nv 12 -1 5\nv 5 11 12\nv 12 11 12\nv 12 11 5\n\
    f 1 3 2\nf 4 5 6\nf 1 2 5 4\nf 2 3 6 5\nf 3 1 4 6\n";

// Boxes like the low one, moved along x by 5 and by 10.
const OVERLAPPING_BOX: &[u8] = b"v 5 0 0\nv 15 0 0\nv 15 10 0\nv 5 10 0\n\
    v 5 0 10\nv 15 0 10\nv 15 10 10\nv 5 10 10\n\
    f 1 4 3 2\nf 5 6 7 8\nf 1 2 6 5\nf 2 3 7 6\nf 3 4 8 7\nf 4 1 5 8\n";

const NEXT_BOX: &[u8] = b"v 10 0 0\nv 20 0 0\nv 20 10 0\nv 10 10 0\n\
    v 10 0 10\nv 20 0 10\nv 20 10 10\nv 10 10 10\n\
    f 1 4 3 2\nf 5 6 7 8\nf 1 2 6 5\nf 2 3 7 6\nf 3 4 8 7\nf 4 1 5 8\n";

fn solid_sources(
    alloc: Global,
    scene: &Scene,
    solid: &SolidRun,
) -> Result<Vec<Option<Source>>, OutOfMemory>
    requires { All IsValidPlane solid.now.mesh.planes.items }
{
    let mesh = &solid.mesh;
    sources_of(
        alloc,
        scene.tris.items(),
        &mesh.corners,
        &mesh.planes,
        &mesh.triangles,
    )
}

// How many triangles of a solid come from each of two meshes as they are, and how many turned.
type Tally = [[usize; 2]; 2];

fn tally_of(scene: &Scene, sources: &[Option<Source>]) -> Result<Tally, Fail> {
    let mut tally = [[0usize; 2]; 2];
    for source in sources {
        let Some(source) = source else {
            return Err(Fail::from("a triangle without a source"));
        };
        let Some(tri) = scene.tris.items().get(source.triangle as usize) else {
            return Err(Fail::from("no such triangle"));
        };
        let count = &mut tally[source.turned as usize][(tri.mesh == 2) as usize];
        *count = count.wrapping_add(1);
    }
    Ok(tally)
}

fn tally_in(alloc: Global, first: &[u8], second: &[u8], text: &[u8]) -> Result<Tally, Fail> {
    let scene = scene_of(alloc, first, second)?;
    let solid = solid_of(alloc, &scene, text, false)?;
    let sources = solid_sources(alloc, &scene, &solid)?;
    tally_of(&scene, &sources)
}

// Triangles of a plane are cut together. So a side of a box that isn't cut has two triangles, one that is cut at a corner
// has four, and one that is cut to a pentagon has three.
static SOLIDS: [(&[u8], &[u8], &[u8], Tally); 6] = [
    (LOW_BOX, HIGH_BOX, b"m1|m2", [[18, 18], [0, 0]]),
    (LOW_BOX, HIGH_BOX, b"m1&!m2", [[18, 0], [0, 6]]),
    (LOW_BOX, WEDGE, b"m1&!m2", [[14, 0], [0, 2]]),
    // Four sides of the boxes lie in the same planes, and there the first box comes first.
    (LOW_BOX, NEXT_BOX, b"m1|m2", [[10, 2], [0, 0]]),
    (LOW_BOX, OVERLAPPING_BOX, b"m1|m2", [[10, 2], [0, 0]]),
    (LOW_BOX, OVERLAPPING_BOX, b"m1&m2", [[10, 2], [0, 0]]),
];

#[test]
fn sources_of_solids(rt: HostRuntime) -> Result<(), Fail> {
    for &(first, second, text, want) in &SOLIDS {
        assert!(rt; tally_in(rt.alloc(), first, second, text)? == want);
    }
    Ok(())
}
