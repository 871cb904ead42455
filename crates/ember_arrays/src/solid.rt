// The solid of meshes in arrays.
ghost use Rattle.std.specs.Prelude.{◌≡◌, ◌≤◌, All, IfOk, IfErr, IfSome, length};
ghost use Rattle.ember_expr.specs.Formula.{formula_of};
ghost use Rattle.ember_query.specs.Queries.{IsAnswer, IsQuery};
ghost use Rattle.mesh_arrays.specs.Arrays.{IsShort};
ghost use Rattle.mesh_grid.specs.Grid.Grids.{IsChoice};
ghost use Rattle.mesh_triangles.specs.PlaneQueries.{IsPlaneAnswer, IsPlaneQuery};
ghost use Rattle.ember_arrays.specs.Faults.{IsArrayFault};
ghost use Rattle.ember_arrays.specs.Solids.{IsArraySolid};

use crate::arrays::arrays_of;
use crate::placing::{PlacedArrays, placed_arrays};
use crate::sources::{ArraySource, sources_if};
use ember_expr::Expr;
use ember_model::OutOfMemory;
use ember_query::{Answer, Query, answer_alone};
use mesh_arrays::ArrayMesh;
use mesh_boolean::{BooleanFault, SolidFile, lying_if, sixfold_volumes_of_meshes};
use mesh_grid::Wanted;
use mesh_solid::{SolidRun, solid_mesh};
use mesh_triangles::{PlaneAnswer, PlaneQuery, TrianglesFault, answer_planes_alone};
use std::alloc::Global;
use steal_pool::OpenGate;

/// A solid in arrays.
#[derive(Drop)]
pub struct ArraySolid {
    /// The coordinates x, y and z of each vertex, in the unit of the meshes: the doubles nearest to the
    /// decimals that a text of the solid has.
    pub vertices: Vec<[f64; 3]>,
    /// The indices of the corners of each triangle among the vertices, from 0, counter-clockwise seen from
    /// outside.
    pub triangles: Vec<[u32; 3]>,
    /// Where each triangle comes from, if it was asked for.
    pub sources: Option<Vec<ArraySource>>,
    /// The grid, and the numbers of the run and of the mesh, as they are with its text. There are no bytes.
    pub file: SolidFile,
}

/// The solid of an expression over meshes in arrays. The mesh with the index `i` is the mesh `i + 1` of the
/// expression. It is made by one thread.
///
/// The meshes are put on the grid that is wanted, and the triangles of the solid are exact there. Each
/// coordinate of their corners is rounded to a decimal, and then to the double that is nearest to it. Where each
/// triangle comes from can be asked for: it has the source of the exact triangle from which it was made. There
/// are at most 64 meshes, of at most 2^28 bytes each, a given step is in range, and there are at most 17 decimal
/// places. Of several faults the first of these is reported:
///
/// 1. The first mesh that has no surface: see [`surface_of`](mesh_arrays::surface_of).
/// 2. The surfaces are no scene: see [`scene_of`](mesh_scene::scene_of).
/// 3. The solid has no mesh: see [`solid_mesh`](mesh_solid::solid_mesh).
/// 4. A corner of the mesh that is 10^21 or more from zero.
/// 5. 2^32 vertices or more.
pub fn array_solid(
    alloc: Global,
    meshes: &[ArrayMesh],
    expr: &Expr,
    wanted: Wanted,
    digits: Option<u32>,
    wants_sources: bool,
) -> Result<ArraySolid, BooleanFault<'static>>
    requires few { length meshes.now ≤ 64 }
    requires short { All IsShort meshes.now }
    requires choice { IsChoice wanted }
    requires digits { IfSome digits (λ n. n ≤ 17) }
    ensures solid { IfOk result (IsArraySolid meshes.now (formula_of expr.now) wanted digits wants_sources) }
    ensures fault { IfErr result (IsArrayFault meshes.now (formula_of expr.now) wanted digits) }
{
    let PlacedArrays { placed, inputs } = placed_arrays(alloc, meshes, wanted, wants_sources)?;
    let sixfold_volumes = sixfold_volumes_of_meshes(alloc, &placed.scene)?;
    let SolidRun { mesh, report, .. } = solid_mesh(
        alloc,
        &placed.scene,
        expr,
        false,
        &|query: &Query| -> Result<Answer, OutOfMemory>
            requires { IsQuery query.now }
            ensures { IfOk result (IsAnswer query.entry.now) }
        { answer_alone(alloc, &OpenGate, query) },
        &|query: &PlaneQuery| -> Result<PlaneAnswer, TrianglesFault>
            requires { IsPlaneQuery query.now }
            ensures { IfOk result (IsPlaneAnswer query.entry.now) }
        { answer_planes_alone(alloc, query) },
    )?;
    let lying = lying_if(alloc, true, &placed.scene, &mesh)?;
    let arrays = arrays_of(alloc, &mesh, &placed.grid, digits)?;
    let tris = placed.scene.tris.items();
    let sources = sources_if(alloc, &inputs, tris, &mesh, &arrays.origins)?;
    Ok(ArraySolid {
        vertices: arrays.vertices,
        triangles: arrays.triangles,
        sources,
        file: SolidFile {
            written: arrays.numbers,
            grid: placed.grid,
            counts: placed.counts,
            moves: placed.moves,
            sixfold_volumes,
            lying,
            report,
            shown_files: None,
            kept: None,
        },
    })
}
