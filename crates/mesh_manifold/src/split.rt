// Meshes whose vertices are doubled.
ghost use Rattle.std.specs.Prelude.{◌≡◌, ◌+◌, ◌*◌, ◌^◌, ◌<◌, [], ◌∷◌, ◌++◌, List, true, Some, map, length, slice_get, IfOk, IfSome, OnOk};
ghost use Rattle.mesh_write.specs.declared.vertices.point.IndexedTriangle.{IndexedTriangle};
ghost use Rattle.mesh_write.specs.Vertices.Vertices.{point_at};
ghost use Rattle.mesh_manifold.specs.Paired.{IsManifold};
ghost use Rattle.mesh_manifold.specs.Splits.{AreSplitOf, Continues};

use crate::check::is_paired;
use crate::classes::{own_classes, root};
use crate::edges::sorted_edges;
use crate::pairing::join_all;
use ember_model::Plane;
use mesh_write::{DecimalPoint, IndexedTriangle};
use std::alloc::{AllocError, Global};

/// No memory has so many triangles.
pub const LIMIT: usize = 1 << 60;

/// A mesh whose vertices are those of another, some of them more than once.
#[derive(Drop)]
pub struct SplitMesh {
    /// The vertex of the other mesh at which each vertex is.
    pub origins: Vec<usize>,
    pub triangles: Vec<IndexedTriangle>,
}

/// A split mesh, and whether each of its edges has two triangles.
#[derive(Drop)]
pub struct CheckedSplit {
    pub mesh: SplitMesh,
    pub is_manifold: bool,
}

// The vertex that a class of corners has, if it is at this origin.
fn known_vertex(
    origins: &[usize],
    vertices: &[Option<usize>],
    class: usize,
    origin: usize,
) -> Option<usize>
    ensures { IfSome result (λ n. slice_get origins.now n ≡ Some origin) }
{
    let vertex = (*vertices.get(class)?)?;
    if *origins.get(vertex)? == origin {
        Some(vertex)
    } else {
        None
    }
}

fn set_vertex(vertices: &mut [Option<usize>], class: usize, vertex: usize) {
    if let Some(known) = vertices.get_mut(class) {
        *known = Some(vertex);
    }
}

// The vertex of a class of corners at this origin. It is put last if the class has none yet.
fn vertex_of(
    origins: &mut Vec<usize>,
    vertices: &mut [Option<usize>],
    class: usize,
    origin: usize,
) -> Result<usize, AllocError>
    ensures continues { OnOk result (Continues origins.old.items origins.new.items) }
    ensures at { IfOk result (λ n. slice_get origins.new.items n ≡ Some origin) }
{
    if let Some(vertex) = known_vertex(origins, vertices, class, origin) {
        return Ok(vertex);
    }
    let vertex = origins.len();
    origins.push(origin)?;
    set_vertex(vertices, class, vertex);
    Ok(vertex)
}

impl SplitMesh {
    // Adds a triangle, whose first corner has this number.
    fn push(
        &mut self,
        vertices: &mut [Option<usize>],
        parents: &mut [usize],
        triangle: &IndexedTriangle,
        first: usize,
    ) -> Result<(), AllocError>
        requires { first + 2 < 2 ^ 64 }
        ensures { (before : List IndexedTriangle) → AreSplitOf self.old before →
            OnOk result (AreSplitOf self.new (before ++ triangle.now ∷ [])) }
    {
        let class = root(parents, first);
        let a = vertex_of(&mut self.origins, vertices, class, triangle.a)?;
        let class = root(parents, first + 1);
        let b = vertex_of(&mut self.origins, vertices, class, triangle.b)?;
        let class = root(parents, first + 2);
        let c = vertex_of(&mut self.origins, vertices, class, triangle.c)?;
        self.triangles.push(IndexedTriangle { a, b, c })?;
        Ok(())
    }
}

// No vertex for each of so many classes.
fn no_vertices(alloc: Global, classes: usize) -> Result<Vec<Option<usize>>, AllocError> {
    let mut vertices = Vec::with_capacity(alloc, classes)?;
    for _class in 0..classes {
        vertices.push(None)?;
    }
    Ok(vertices)
}

// The mesh with a vertex for each class of corners.
fn split_by(
    alloc: Global,
    triangles: &[IndexedTriangle],
    parents: &mut [usize],
) -> Result<SplitMesh, AllocError>
    requires { length triangles.now < 2 ^ 60 }
    ensures { IfOk result (λ mesh. AreSplitOf mesh triangles.now) }
{
    let mut vertices = no_vertices(alloc, parents.len())?;
    let mut mesh = SplitMesh {
        origins: Vec::new(alloc),
        triangles: Vec::new(alloc),
    };
    for (index, triangle) in triangles.iter().enumerate() {
        mesh.push(&mut vertices, parents, triangle, 3 * index)?;
    }
    Ok(mesh)
}

// Whether each edge of the triangles has two of them.
fn has_two_each(alloc: Global, triangles: &[IndexedTriangle]) -> Result<bool, AllocError>
    requires { length triangles.now < 2 ^ 60 }
    ensures { IfOk result (λ is_manifold. is_manifold ≡ true → IsManifold triangles.now) }
{
    let edges = sorted_edges(alloc, triangles)?;
    Ok(is_paired(&edges))
}

/// The same triangles over vertices of which some are doubled. Triangles with a common edge share
/// the vertices of the edge if no others have it, or if solid lies between them; corners that
/// aren't joined so are vertices of their own. So each vertex has one ring of triangles, and each
/// edge has two triangles unless a ring is pinched along it; whether each has is part of the
/// result.
///
/// `numbers` has the number of each triangle's plane. A triangle without a plane, or whose plane
/// has a normal of 2^25 or more, isn't joined to others along an edge of more than two triangles.
/// The one error is out-of-memory; 2^60 triangles or more, for which no memory is large enough, are
/// reported so, too.
pub fn split_vertices(
    alloc: Global,
    planes: &[Plane],
    numbers: &[u32],
    vertices: &[DecimalPoint],
    triangles: &[IndexedTriangle],
) -> Result<CheckedSplit, AllocError>
    ensures corners { IfOk result (λ split. AreSplitOf split.mesh triangles.now) }
    ensures manifold { IfOk result (λ split. split.is_manifold ≡ true → IsManifold split.mesh.triangles.items) }
{
    if triangles.len() >= LIMIT {
        return Err(AllocError);
    }
    let edges = sorted_edges(alloc, triangles)?;
    let mut parents = own_classes(alloc, 3 * triangles.len())?;
    join_all(alloc, planes, numbers, vertices, &edges, &mut parents)?;
    drop(edges);
    let mesh = split_by(alloc, triangles, &mut parents)?;
    drop(parents);
    let is_manifold = has_two_each(alloc, &mesh.triangles)?;
    Ok(CheckedSplit { mesh, is_manifold })
}

/// The point with this index; what is no point is at zero.
pub fn point_at(points: &[DecimalPoint], index: usize) -> DecimalPoint
    ensures { result ≡ point_at points.now index }
{
    match points.get(index) {
        Some(point) => *point,
        None => DecimalPoint { x: 0, y: 0, z: 0 },
    }
}

/// The points of vertices that are at vertices of another mesh.
pub fn points_of(
    alloc: Global,
    vertices: &[DecimalPoint],
    origins: &[usize],
) -> Result<Vec<DecimalPoint>, AllocError>
    ensures { IfOk result (λ points. points.items ≡ map (point_at vertices.now) origins.now) }
{
    let mut points = Vec::with_capacity(alloc, origins.len())?;
    for origin in origins {
        points.push(point_at(vertices, *origin))?;
    }
    Ok(points)
}
