// Which file is wanted.
use mesh_grid::Wanted;
use mesh_placing::Placing;
use mesh_write::TextFormat;

/// A format with floats of 32 bits.
#[derive(Clone, Copy, Debug, PartialEq, Eq)]
pub enum FloatFormat {
    /// Binary STL.
    Stl,
    /// The binary file of glTF 2.0.
    Glb,
}

/// The format of a mesh file that is written.
#[derive(Clone, Copy, Debug, PartialEq, Eq)]
pub enum MeshFormat {
    /// Coordinates are rounded to floats.
    Floats(FloatFormat),
    /// Text: coordinates are rounded to decimals with at most so many places, up to 17. If no
    /// number is given, there are at most six more than the step of the grid has.
    Text(TextFormat, Option<u32>),
}

/// A wanted file: how the files are placed, the grid on which the solid is exact, the format in which
/// it is written, and what is wanted beside it.
#[derive(Clone, Copy)]
pub struct WantedFile<'p, 's> {
    /// None at all, or an entry for each file.
    pub placings: &'p [Option<Placing<'s>>],
    pub grid: Wanted,
    pub format: MeshFormat,
    /// Whether the triangles are wanted as a page shows them.
    pub shows: bool,
    /// Whether the scene of the files and the document of the solid are to be kept.
    pub keeps: bool,
    /// Whether it is counted how many triangles lie on each file.
    pub counts: bool,
}
