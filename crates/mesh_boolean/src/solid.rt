// The solid of mesh files.
ghost use Rattle.std.specs.Prelude.{◌≡◌, ◌≤◌, length, All, IfOk, IfErr};
ghost use Rattle.std.specs.Option.{option_map};
ghost use Rattle.ember_expr.specs.Formula.{formula_of};
ghost use Rattle.mesh_grid.specs.Grid.Grids.{IsChoice};
ghost use Rattle.ember_query.specs.Queries.{IsExecutor};
ghost use Rattle.mesh_boolean.specs.Files.{IsSmall};
ghost use Rattle.mesh_boolean.specs.Images.{AreForEach};
ghost use Rattle.mesh_boolean.specs.Outputs.{HasFewDigits, IsOutput};
ghost use Rattle.mesh_boolean.specs.Faults.{IsBooleanFault};
ghost use Rattle.mesh_triangles.specs.PlaneQueries.{IsPlaneExecutor};

use crate::fault::BooleanFault;
use crate::files::InputFile;
use crate::lying::lying_if;
use crate::output::{KeptDocument, SolidFile};
use crate::placing::placed_files;
use crate::shown_files::shown_files_if;
use crate::volumes::sixfold_volumes_of_meshes;
use crate::wanted::WantedFile;
use crate::writing::written_of;
use ember_expr::Expr;
use ember_model::{OutOfMemory, Scene};
use ember_query::{Answer, Query};
use mesh_outside::{Stage, Stages};
use mesh_solid::{SolidRun, solid_mesh};
use mesh_triangles::{PlaneAnswer, PlaneQuery, TrianglesFault};
use std::alloc::Global;

// The scene and the document of its solid, if that is there; otherwise the scene is dropped.
fn kept_with(scene: Scene, document: Option<Vec<u8>>) -> Option<KeptDocument>
    ensures { result ≡ option_map (λ document. record { scene = scene; document = document }) document }
{
    match document {
        Some(document) => Some(KeptDocument { scene, document }),
        None => None,
    }
}

/// The solid of an expression over mesh files, as the file that is wanted. The file with the index
/// `i` is the mesh `i + 1` of the expression.
///
/// The surfaces of the files, or their images where a file is placed, are put on the grid that is
/// wanted, the triangles of the solid are
/// exact there, and each coordinate of their corners is rounded once. What is wanted beside the file
/// is there, and else it is dropped as soon as it isn't needed. `stages` is told of the stages but
/// those of the executors. There are at most 64 files, of at
/// most 2^28 bytes each, a given step is in range, and there are at most 17 decimal places. Of
/// several faults the first of these is reported:
///
/// 1. The first file that isn't read.
/// 2. The first file that has no image by its placing, and then the first whose image is no mesh.
/// 3. The surfaces are no scene: see [`scene_of`](mesh_scene::scene_of).
/// 4. The solid has no mesh: see [`solid_mesh`](mesh_solid::solid_mesh).
/// 5. A corner of the mesh that is too far out for a float, or for a decimal.
/// 6. After rounding, too many triangles: 2^32 or more for an STL, 2^32 bytes or more of a GLB.
pub fn solid_file<
    'a,
    P: Stages,
    C: Fn(&Query) -> Result<Answer, OutOfMemory>,
    D: Fn(&PlaneQuery) -> Result<PlaneAnswer, TrianglesFault>,
>(
    alloc: Global,
    files: &[InputFile<'a>],
    expr: &Expr,
    wanted: WantedFile,
    stages: &P,
    executor: &C,
    plane_executor: &D,
) -> Result<SolidFile, BooleanFault<'a>>
    requires few { length files.now ≤ 64 }
    requires sizes { All IsSmall files.now }
    requires placings { AreForEach wanted.placings.now files.now }
    requires choice { IsChoice wanted.grid }
    requires digits { HasFewDigits wanted.format }
    requires executor { IsExecutor C.pre C.post executor.now }
    requires plane_executor { IsPlaneExecutor D.pre D.post plane_executor.now }
    ensures output { IfOk result (IsOutput files.now (formula_of expr.now) wanted.entry) }
    ensures fault { IfErr result (IsBooleanFault files.now (formula_of expr.now) wanted.entry) }
{
    let placed = placed_files(alloc, files, wanted.placings, wanted.grid, stages)?;
    let sixfold_volumes = sixfold_volumes_of_meshes(alloc, &placed.scene)?;
    let SolidRun {
        mesh,
        report,
        document,
    } = solid_mesh(
        alloc,
        &placed.scene,
        expr,
        wanted.keeps,
        executor,
        plane_executor,
    )?;
    let lying = lying_if(alloc, wanted.counts, &placed.scene, &mesh)?;
    stages.begin(Stage::Writing);
    let tris = placed.scene.tris.items();
    let shown_files = shown_files_if(alloc, wanted.shows, tris, &mesh, &placed.grid)?;
    let kept = kept_with(placed.scene, document);
    let written = written_of(alloc, mesh, &placed.grid, wanted.format, wanted.shows)?;
    Ok(SolidFile {
        written,
        grid: placed.grid,
        counts: placed.counts,
        moves: placed.moves,
        sixfold_volumes,
        lying,
        report,
        shown_files,
        kept,
    })
}
