// The output for mesh files.
use crate::writing::OutputMesh;
use ember_model::Scene;
use ember_report::Report;
use mesh_grid::{Grid, Length};
use mesh_scene::Counts;

/// A solid as a file, with the grid and the numbers of the run that made it.
#[derive(Drop)]
pub struct SolidFile {
    pub written: OutputMesh,
    /// The grid on which the mesh is exact.
    pub grid: Grid,
    /// The counts of each file, in order.
    pub counts: Vec<Counts>,
    /// How far a corner of each file moved to the grid at most, in order.
    pub moves: Vec<Length>,
    /// Six times the signed volume of each file's mesh on the grid, in cubes of the step, in order.
    pub sixfold_volumes: Vec<i64>,
    /// How many triangles of the solid, before they are rounded, lie on each file's mesh on the grid,
    /// in order, if they were to be counted.
    pub lying: Option<Vec<u64>>,
    pub report: Report,
    /// For each triangle that is shown, the number of the file, from 1, on whose triangle it lies: see
    /// [`sources_of`](mesh_sources::sources_of). 0 if there is none. They are there if a page was asked
    /// for.
    pub shown_files: Option<Vec<usize>>,
    /// What was computed from, and the exact result, if they were to be kept.
    pub kept: Option<KeptDocument>,
}

/// The triangles of mesh files on their grid, and the document of the solid.
#[derive(Drop)]
pub struct KeptDocument {
    pub scene: Scene,
    pub document: Vec<u8>,
}
