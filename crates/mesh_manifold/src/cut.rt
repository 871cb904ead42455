// Meshes whose triangles are cut at the middles of edges.
ghost use Rattle.std.specs.Prelude.{◌≡◌, [], ◌∷◌, ◌++◌, List, map, flat_map, IfOk, OnOk};
ghost use Rattle.mesh_write.specs.declared.vertices.point.DecimalTriangle.{DecimalTriangle};
ghost use Rattle.mesh_write.specs.Vertices.Vertices.{same_point, over, IsMeshOf};
ghost use Rattle.mesh_manifold.specs.Cuts.{triangle, is_apart, is_cut, halves_at, halves, pieces, origins_from, plane_of, ArePutBehind, IsCutMesh};

use crate::edge_set::EdgeSet;
use crate::middles::middle;
use crate::pinched::pinched_edges;
use crate::split::{LIMIT, SplitMesh, point_at};
use mesh_write::{DecimalPoint, DecimalTriangle, IndexedMesh, IndexedTriangle};
use std::alloc::{AllocError, Global};

/// A mesh of triangles, some of which are parts of those of another mesh.
#[derive(Drop)]
pub struct CutMesh {
    pub mesh: IndexedMesh,
    /// The index of the other mesh's triangle that each triangle is cut of.
    pub origins: Vec<usize>,
    /// The number of the plane of each triangle.
    pub planes: Vec<u32>,
}

// The pieces of triangles, and the index of the triangle that each is cut of.
#[derive(Drop)]
struct Pieces {
    mesh: IndexedMesh,
    origins: Vec<usize>,
}

fn is_same_point(p: &DecimalPoint, q: &DecimalPoint) -> bool
    ensures { result ≡ same_point p.now q.now }
{
    *p == *q
}

// Whether the point is no corner of the triangle u, v, w.
fn is_apart(m: &DecimalPoint, u: &DecimalPoint, v: &DecimalPoint, w: &DecimalPoint) -> bool
    ensures { result ≡ is_apart m.now u.now v.now w.now }
{
    !(is_same_point(m, u) || (is_same_point(m, v) || is_same_point(m, w)))
}

// Whether the triangle u, v, w is cut along its edge from u to v.
fn is_cut(edges: &EdgeSet, u: &DecimalPoint, v: &DecimalPoint, w: &DecimalPoint) -> bool
    ensures { result ≡ is_cut edges.now.edges.keys u.now v.now w.now }
{
    edges.has(u, v) && is_apart(&middle(u, v), u, v, w)
}

fn triangle(u: &DecimalPoint, v: &DecimalPoint, w: &DecimalPoint) -> DecimalTriangle
    ensures { result ≡ triangle u.now v.now w.now }
{
    DecimalTriangle {
        a: *u,
        b: *v,
        c: *w,
    }
}

// Adds the triangle u, v, w.
fn push_one(
    cut: &mut Pieces,
    u: &DecimalPoint,
    v: &DecimalPoint,
    w: &DecimalPoint,
    origin: usize,
) -> Result<(), AllocError>
    ensures { OnOk result (ArePutBehind (triangle u.now v.now w.now ∷ []) origin cut.old cut.new) }
{
    cut.mesh.push(&triangle(u, v, w))?;
    cut.origins.push(origin)?;
    Ok(())
}

// Adds the halves of the triangle u, v, w that is cut at m.
fn push_two(
    cut: &mut Pieces,
    u: &DecimalPoint,
    m: &DecimalPoint,
    v: &DecimalPoint,
    w: &DecimalPoint,
    origin: usize,
) -> Result<(), AllocError>
    ensures { OnOk result (ArePutBehind (halves_at m.now u.now v.now w.now) origin cut.old cut.new) }
{
    push_one(cut, u, m, w, origin)?;
    push_one(cut, m, v, w, origin)?;
    Ok(())
}

// Adds the halves of the triangle u, v, w, or the triangle itself.
fn push_halves(
    cut: &mut Pieces,
    edges: &EdgeSet,
    u: &DecimalPoint,
    v: &DecimalPoint,
    w: &DecimalPoint,
    origin: usize,
) -> Result<(), AllocError>
    ensures { OnOk result (ArePutBehind (halves edges.now.edges.keys u.now v.now w.now) origin cut.old cut.new) }
{
    if is_cut(edges, u, v, w) {
        return push_two(cut, u, &middle(u, v), v, w, origin);
    }
    push_one(cut, u, v, w, origin)
}

// Adds the pieces of a triangle that is cut at m along its edge from b to c.
fn push_both(
    cut: &mut Pieces,
    edges: &EdgeSet,
    t: &DecimalTriangle,
    m: &DecimalPoint,
    origin: usize,
) -> Result<(), AllocError>
    ensures { OnOk result (ArePutBehind (halves edges.now.edges.keys t.now.a t.now.b m.now ++
        halves edges.now.edges.keys t.now.c t.now.a m.now) origin cut.old cut.new) }
{
    push_halves(cut, edges, &t.a, &t.b, m, origin)?;
    push_halves(cut, edges, &t.c, &t.a, m, origin)?;
    Ok(())
}

// Adds the pieces of a triangle that is cut at m along its edge from c to a, and not from b to c.
fn push_second(
    cut: &mut Pieces,
    edges: &EdgeSet,
    t: &DecimalTriangle,
    m: &DecimalPoint,
    origin: usize,
) -> Result<(), AllocError>
    ensures { OnOk result (ArePutBehind (triangle t.now.b t.now.c m.now ∷
        halves edges.now.edges.keys t.now.a t.now.b m.now) origin cut.old cut.new) }
{
    push_one(cut, &t.b, &t.c, m, origin)?;
    push_halves(cut, edges, &t.a, &t.b, m, origin)?;
    Ok(())
}

fn push_pieces(
    cut: &mut Pieces,
    edges: &EdgeSet,
    t: &DecimalTriangle,
    origin: usize,
) -> Result<(), AllocError>
    ensures { OnOk result (ArePutBehind (pieces edges.now.edges.keys t.now) origin cut.old cut.new) }
{
    if is_cut(edges, &t.b, &t.c, &t.a) {
        return push_both(cut, edges, t, &middle(&t.b, &t.c), origin);
    }
    if is_cut(edges, &t.c, &t.a, &t.b) {
        return push_second(cut, edges, t, &middle(&t.c, &t.a), origin);
    }
    push_halves(cut, edges, &t.a, &t.b, &t.c, origin)
}

// The triangle by the points of its corners.
fn over(vertices: &[DecimalPoint], t: &IndexedTriangle) -> DecimalTriangle
    ensures { result ≡ over vertices.now t.now }
{
    DecimalTriangle {
        a: point_at(vertices, t.a),
        b: point_at(vertices, t.b),
        c: point_at(vertices, t.c),
    }
}

// The number of the plane of the triangle with this index. What has none gets one that no plane has.
fn plane_of(planes: &[u32], origin: usize) -> u32
    ensures { result ≡ plane_of planes.now origin }
{
    match planes.get(origin) {
        Some(plane) => *plane,
        None => u32::MAX,
    }
}

fn planes_of(alloc: Global, planes: &[u32], origins: &[usize]) -> Result<Vec<u32>, AllocError>
    ensures { IfOk result (λ numbers. numbers.items ≡ map (plane_of planes.now) origins.now) }
{
    let mut numbers = Vec::with_capacity(alloc, origins.len())?;
    for origin in origins {
        numbers.push(plane_of(planes, *origin))?;
    }
    Ok(numbers)
}

fn cut_at(
    alloc: Global,
    edges: &EdgeSet,
    vertices: &[DecimalPoint],
    triangles: &[IndexedTriangle],
) -> Result<Pieces, AllocError>
    ensures mesh { IfOk result (λ cut. IsMeshOf
        (flat_map (pieces edges.now.edges.keys) (map (over vertices.now) triangles.now)) cut.mesh) }
    ensures origins { IfOk result (λ cut. cut.origins.items ≡
        origins_from edges.now.edges.keys 0 (map (over vertices.now) triangles.now)) }
{
    let mut cut = Pieces {
        mesh: IndexedMesh::new(alloc),
        origins: Vec::new(alloc),
    };
    for (index, triangle) in triangles.iter().enumerate() {
        push_pieces(&mut cut, edges, &over(vertices, triangle), index)?;
    }
    Ok(cut)
}

/// The mesh with its triangles cut at the middles of those edges that still have more than two
/// triangles after vertices were doubled. There a ring is pinched along the edge: all its triangles
/// share the edge's ends. A triangle isn't cut at a middle that rounds to one of its corners. The
/// pieces of a triangle take its place in the order.
///
/// `planes` has the number of each triangle's plane, and `split` is the mesh with doubled vertices.
/// The one error is out-of-memory; 2^60 triangles or more, for which no memory is large enough, are
/// reported so, too.
pub fn cut_pinched(
    alloc: Global,
    mesh: &IndexedMesh,
    planes: &[u32],
    split: &SplitMesh,
) -> Result<CutMesh, AllocError>
    ensures { (ts : List DecimalTriangle) → IsMeshOf ts mesh.now →
        IfOk result (IsCutMesh planes.now ts) }
{
    if split.triangles.len() >= LIMIT {
        return Err(AllocError);
    }
    let vertices = mesh.vertices();
    let edges = pinched_edges(alloc, vertices, split)?;
    let Pieces { mesh, origins } = cut_at(alloc, &edges, vertices, mesh.triangles())?;
    let planes = planes_of(alloc, planes, &origins)?;
    Ok(CutMesh {
        mesh,
        origins,
        planes,
    })
}
