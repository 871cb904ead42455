// Solids of scenes on the broad grid: two boxes whose farthest corners are 7 steps from its end.
ghost use Rattle.std.specs.Prelude.{◌≡◌, IfOk};
ghost use Rattle.ember_algebra.specs.Size.{Small};
ghost use Rattle.ember_model.specs.Limits.{broad_limit, most_meshes};
ghost use Rattle.ember_model.specs.Valid.{IsValidCorner, IsValidTri};
ghost use Rattle.ember_query.specs.Queries.{IsAnswer, IsQuery};
ghost use Rattle.ember_width.specs.Scenes.{IsSceneWithin};
ghost use Rattle.mesh_solid_tests.specs.Stretched.{stretched, stretched_corner, stretched_tri};
ghost use Rattle.mesh_triangles.specs.PlaneQueries.{IsPlaneAnswer, IsPlaneQuery};

use crate::triangles::solids::{HIGH_BOX, LOW_BOX, scene_of};
use ember_expr::{Expr, parse};
use ember_model::{Corner, Face, OutOfMemory, Scene, Tri};
use ember_query::{Answer, Query, SolidFaces, answer_alone, answer_by_workers, broad_solid_faces};
use mesh_certificate::Segment;
use mesh_point::SpacePoint;
use mesh_solid::{SolidMesh, SolidRun, broad_solid_mesh};
use mesh_triangles::{PlaneAnswer, PlaneQuery, TrianglesFault, answer_planes_alone};
use std::alloc::Global;
use std::sync::Wait;
use std::test::Fail;
use std::thread::Threads;
use steal_pool::OpenGate;

// Where a coordinate of the two boxes lies on the broad grid: 0, 5, 10 and 15 become equidistant.
fn stretched(x: i32) -> i32
    ensures value { result ≡ stretched x }
    ensures small { Small broad_limit result }
{
    if x == 0 {
        -524_280
    } else if x == 5 {
        -174_760
    } else if x == 10 {
        174_760
    } else {
        524_280
    }
}

fn stretched_corner(c: &Corner) -> Corner
    requires { IsValidCorner c.now }
    ensures { result ≡ stretched_corner c.now }
{
    Corner {
        x: stretched(c.x),
        y: stretched(c.y),
        z: stretched(c.z),
    }
}

fn stretched_tri(t: &Tri) -> Tri
    requires { IsValidTri t.now }
    ensures { result ≡ stretched_tri t.now }
{
    Tri {
        a: stretched_corner(&t.a),
        b: stretched_corner(&t.b),
        c: stretched_corner(&t.c),
        mesh: t.mesh,
    }
}

// The triangles of a scene, stretched.
fn stretched_scene(alloc: Global, scene: &Scene) -> Result<Vec<Tri>, OutOfMemory>
    ensures { IfOk result (λ tris. IsSceneWithin broad_limit tris.items most_meshes) }
{
    let mut tris = Vec::new(alloc);
    for t in scene.tris.items() {
        tris.push(stretched_tri(t))?;
    }
    Ok(tris)
}

// Those of the two boxes.
fn two_boxes(alloc: Global) -> Result<Vec<Tri>, Fail>
    ensures { IfOk result (λ tris. IsSceneWithin broad_limit tris.items most_meshes) }
{
    let scene = scene_of(alloc, LOW_BOX, HIGH_BOX)?;
    Ok(stretched_scene(alloc, &scene)?)
}

fn expression(alloc: Global, text: &[u8]) -> Result<Expr, Fail> {
    match parse(alloc, text, 2) {
        Ok(expr) => Ok(expr),
        Err(_) => Err(Fail::from("refused expression")),
    }
}

// ---- outlines by one worker and by three
// The faces of the outlines, by so many workers, of which there are 1 to 64.
fn faces_by<R: Threads + Wait + Sync>(
    rt: &R,
    alloc: Global,
    workers: u32,
    tris: &[Tri],
    expr: &Expr,
) -> Result<SolidFaces, OutOfMemory>
    requires { IsSceneWithin broad_limit tris.now most_meshes }
{
    broad_solid_faces(
        alloc,
        tris,
        expr,
        &|query: &Query| -> Result<Answer, OutOfMemory>
            requires { IsQuery query.now }
            ensures { IfOk result (IsAnswer query.entry.now) }
        { answer_by_workers(rt, alloc, workers.clamp(1, 64), &OpenGate, query) },
    )
}

fn are_same(one: &[Face], other: &[Face]) -> bool {
    if one.len() != other.len() {
        return false;
    }
    for (face, same) in one.iter().zip(other) {
        if face.support != same.support || face.edges.items() != same.edges.items() {
            return false;
        }
    }
    true
}

// Whether there are faces, the report counts them, and three workers give them as one does.
fn agree<R: Threads + Wait + Sync>(rt: &R, alloc: Global, text: &[u8]) -> Result<[bool; 4], Fail> {
    let tris = two_boxes(alloc)?;
    let expr = expression(alloc, text)?;
    let one = faces_by(rt, alloc, 1, &tris, &expr)?;
    let three = faces_by(rt, alloc, 3, &tris, &expr)?;
    Ok([
        !one.faces.is_empty(),
        one.report.faces == one.faces.len() as u64,
        one.report == three.report,
        are_same(&one.faces, &three.faces),
    ])
}

#[test]
fn outlines_by_one_worker_and_by_three(rt: HostRuntime) -> Result<(), Fail> {
    for text in ["m1|m2", "m1&m2", "m1&!m2"] {
        assert!(rt;
            agree(&rt, rt.alloc(), text.as_bytes())? == [true; 4],
            "{text}"
        );
    }
    Ok(())
}

// ---- meshes
fn solid_of(alloc: Global, text: &[u8]) -> Result<SolidRun, Fail> {
    let tris = two_boxes(alloc)?;
    let expr = expression(alloc, text)?;
    let solid = broad_solid_mesh(
        alloc,
        &tris,
        &expr,
        &|query: &Query| -> Result<Answer, OutOfMemory>
            requires { IsQuery query.now }
            ensures { IfOk result (IsAnswer query.entry.now) }
        { answer_alone(alloc, &OpenGate, query) },
        &|query: &PlaneQuery| -> Result<PlaneAnswer, TrianglesFault>
            requires { IsPlaneQuery query.now }
            ensures { IfOk result (IsPlaneAnswer query.entry.now) }
        { answer_planes_alone(alloc, query) },
    )?;
    Ok(solid)
}

// A coordinate of the boxes from the first of these numbers to the last.
fn is_among(x: i32, from: i32, to: i32) -> bool {
    from <= x && x <= to && (x == -524_280 || x == -174_760 || x == 174_760 || x == 524_280)
}

// A whole point with such coordinates.
fn is_corner(c: &SpacePoint, from: i32, to: i32) -> bool {
    (c.x, c.y, c.z, c.w) == (0, 0, 0, 1)
        && is_among(c.floor_x, from, to)
        && is_among(c.floor_y, from, to)
        && is_among(c.floor_z, from, to)
}

fn starts_at_corner(mesh: &SolidMesh, edge: &Segment, from: i32, to: i32) -> bool {
    match mesh.corners.get(edge.start as usize) {
        Some(corner) => is_corner(corner, from, to),
        None => false,
    }
}

// Whether the corners of all triangles are such points.
fn lie_within(mesh: &SolidMesh, from: i32, to: i32) -> bool {
    mesh.triangles.iter().all(|t| {
        starts_at_corner(mesh, &t.first, from, to)
            && starts_at_corner(mesh, &t.second, from, to)
            && starts_at_corner(mesh, &t.third, from, to)
    })
}

// An expression, the number of triangles, and from where to where they reach. A face of a box that isn't
// cut has two triangles. One that is cut at a corner has four.
static SOLIDS: [(&[u8], usize, i32, i32); 4] = [
    (b"m1|m2", 36, -524_280, 524_280),
    (b"m1&m2", 12, -174_760, 174_760),
    (b"m1&!m2", 24, -524_280, 174_760),
    (b"m1&!m1", 0, 0, 0),
];

#[test]
fn solids_of_the_broad_grid(rt: HostRuntime) -> Result<(), Fail> {
    for &(text, want, from, to) in &SOLIDS {
        let solid = solid_of(rt.alloc(), text)?;
        assert!(rt; solid.mesh.triangles.len() == want);
        assert!(rt; lie_within(&solid.mesh, from, to));
        assert!(rt; solid.mesh.faces == solid.report.faces && solid.document.is_none());
    }
    Ok(())
}
