// A mesh as an OBJ in steps of the grid.
ghost use Rattle.std.specs.Prelude.{◌≡◌, IfOk};
ghost use Rattle.mesh_write.specs.Vertices.Vertices.{IsMeshOf};
ghost use Rattle.mesh_scene.specs.SceneFile.Meshes.{point_of, triangle_of, triangles_of, mesh_text};

use ember_model::{Corner, OutOfMemory, Tri};
use mesh_write::{DecimalPoint, DecimalTriangle, IndexedMesh, put_obj_lines};
use std::alloc::Global;

// A comment, which readers of OBJ pass over.
const HEAD: &[u8] = b"# ember-mesh: on the grid of scene.json\n";

fn point_of(corner: &Corner) -> DecimalPoint
    ensures { result ≡ point_of corner.now }
{
    DecimalPoint {
        x: i128::from(corner.x),
        y: i128::from(corner.y),
        z: i128::from(corner.z),
    }
}

fn triangle_of(tri: &Tri) -> DecimalTriangle
    ensures { result ≡ triangle_of tri.now }
{
    DecimalTriangle {
        a: point_of(&tri.a),
        b: point_of(&tri.b),
        c: point_of(&tri.c),
    }
}

// The triangles of the mesh over their vertices.
#[tactic(auto, using(crate::proofs::MeshTriangles::triangle_more, crate::proofs::MeshTriangles::triangle_passed))]
fn indexed_mesh(alloc: Global, tris: &[Tri], mesh: u32) -> Result<IndexedMesh, OutOfMemory>
    ensures { IfOk result (IsMeshOf (triangles_of mesh tris.now)) }
{
    let mut indexed = IndexedMesh::new(alloc);
    for tri in tris {
        if tri.mesh == mesh {
            indexed.push(&triangle_of(tri))?;
        }
    }
    Ok(indexed)
}

/// The OBJ of the triangles with this mesh number, in their order: coordinates are those of the
/// grid, whole numbers. Each position is one vertex, in the order of first use. The first line is a
/// comment. The one error is out-of-memory.
pub fn grid_mesh(alloc: Global, tris: &[Tri], mesh: u32) -> Result<Vec<u8>, OutOfMemory>
    ensures { IfOk result (λ text. text.items ≡ mesh_text (triangles_of mesh tris.now)) }
{
    let indexed = indexed_mesh(alloc, tris, mesh)?;
    let mut text = Vec::from_slice(alloc, HEAD)?;
    put_obj_lines(indexed.vertices(), indexed.triangles(), 0, &mut text)?;
    Ok(text)
}
