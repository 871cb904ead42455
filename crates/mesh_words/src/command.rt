// The commands of the second program.
use ember_words::{Text, Texts};

/// What the words ask for.
#[derive(Drop)]
pub enum Command {
    /// Write the mesh of a Boolean.
    Boole(Request),
    /// Put meshes on their grid, and write them and the grid into a folder.
    Snap(SnapRequest),
    /// Write the mesh of a document.
    Export(ExportRequest),
    /// Print what is said of each of these meshes, 1 to 64.
    Info(Texts),
    /// Write a page that shows meshes.
    View(ViewRequest),
    /// Print the usage.
    Help,
    /// Print the version.
    Version,
}

/// A Boolean of meshes. There are 1 to 64 files.
#[derive(Drop)]
pub struct Request {
    /// An expression over the files in their order, not yet parsed.
    pub expression: Text,
    /// Where the mesh goes. A file's name ends as its format says.
    pub output: Destination,
    pub format: OutputFormat,
    pub step: WantedStep,
    /// From 1 to 64.
    pub workers: u32,
    /// Whether the program prints only a refusal.
    pub quiet: bool,
    /// The decimal places of OBJ, PLY and OFF, up to 17. If there is no number, the step decides.
    pub digits: Option<u32>,
    /// The names of the mesh files; `-` is standard input, and at most one of them.
    pub files: Texts,
    /// The name of a page that shows the result too.
    pub view: Option<Text>,
    /// The folder that keeps the meshes on their grid, the grid, and the document.
    pub keep: Option<Text>,
    /// The values of `--place`, in order: `FILE:STEPS`, by which `placings_of` of mesh_placing places
    /// the files.
    pub places: Texts,
    /// The values of `--turn`: the numbers of the files that are turned inside out.
    pub turns: Texts,
}

/// Meshes to be put on their grid. There are 1 to 64 files.
#[derive(Drop)]
pub struct SnapRequest {
    /// The folder that the meshes and the grid are written into.
    pub folder: Text,
    pub step: WantedStep,
    /// Whether the program prints only a refusal.
    pub quiet: bool,
    /// The names of the mesh files.
    pub files: Texts,
}

/// A document of a Boolean whose mesh is to be written.
#[derive(Drop)]
pub struct ExportRequest {
    /// The name of the document.
    pub document: Text,
    /// The name of the file with the grid of the document. Without it the step is 1 and nothing is
    /// moved.
    pub scene: Option<Text>,
    /// Where the mesh goes. A file's name ends as its format says.
    pub output: Destination,
    pub format: OutputFormat,
    /// The decimal places of OBJ, PLY and OFF, up to 17. If there is no number, the step decides.
    pub digits: Option<u32>,
    /// The name of a page that shows the result too.
    pub view: Option<Text>,
    /// Whether the program prints only a refusal.
    pub quiet: bool,
}

/// A page that shows meshes. There are 1 to 64 files.
#[derive(Drop)]
pub struct ViewRequest {
    /// The name of the page, which ends in `.html` or `.htm`.
    pub output: Text,
    /// The names of the mesh files.
    pub files: Texts,
}

/// Where a mesh goes.
#[derive(Drop)]
pub enum Destination {
    /// The file of this name.
    File(Text),
    /// Standard output.
    StandardOutput,
}

/// How the mesh is written.
#[derive(Clone, Copy, Debug, PartialEq, Eq)]
pub enum OutputFormat {
    /// Binary STL.
    Stl,
    /// The binary file of glTF 2.0.
    Glb,
    Obj,
    Ply,
    Off,
}

/// The step of the grid that is asked for.
#[derive(Drop)]
pub enum WantedStep {
    /// The least nice step at which the scene fits.
    Nice,
    /// The least fine step at which it fits.
    Finest,
    /// A decimal above 0, as `read_decimal` of mesh_number reads it, in the unit of the files.
    Decimal(Text),
}
