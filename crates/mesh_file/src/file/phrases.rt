// Reasons why files are refused, each with its remedy.
pub(crate) const NO_TRIANGLES: &str = "no triangles in it; is it a mesh?";

pub(crate) const FEW_COORDINATES: &str = "fewer than three coordinates; export anew";

pub(crate) const TOO_LARGE: &str = "a coordinate of 1e15 or more; export in another unit";

pub(crate) const OUT_OF_MEMORY: &str = "out of memory";

// STL
pub(crate) const FACET_NOT_FINITE: &str =
    "coordinate is not a finite number; remove the facet or export anew";

pub(crate) const VERTEX_OUTSIDE: &str = "vertex outside a facet; export anew";

pub(crate) const NOT_THREE_VERTICES: &str = "facet without three vertices; export anew";

pub(crate) const ENDS_IN_FACET: &str = "the file ends in a facet; it is cut off, export anew";

// PLY
pub(crate) const NO_END: &str = "PLY header has no end; export anew";

pub(crate) const NOT_UNDERSTOOD: &str = "PLY header line not understood; export anew";

pub(crate) const NO_FORMAT: &str =
    "PLY format is none of ascii, binary_little_endian, binary_big_endian; export anew";

pub(crate) const SHORT_ROW: &str = "the file ends or the row is short; it is cut off, export anew";

pub(crate) const VERTEX_NOT_FINITE: &str = "coordinate is not a finite number; export anew";

pub(crate) const NO_COORDINATES: &str = "PLY vertices have no x, y, z; export anew";

pub(crate) const NO_CORNERS: &str =
    "PLY faces have no vertex_indices (strips aren't read); export as triangles";

pub(crate) const NO_SUCH_VERTEX: &str = "names a vertex that isn't there; export anew";

pub(crate) const FEW_CORNERS: &str = "fewer than three corners; remove it";

// OFF
pub(crate) const NO_OFF: &str = "no OFF; export anew";

pub(crate) const MORE_COORDINATES: &str =
    "vertices of four coordinates (4OFF) aren't read; export as OFF";

pub(crate) const NO_COUNTS: &str = "OFF has no counts; export anew";

pub(crate) const FEW_LINES: &str = "fewer lines than the counts say; it is cut off, export anew";

pub(crate) const FACE_NOT_UNDERSTOOD: &str = "face not understood; export anew";

// OBJ
pub(crate) const FACE_OF_FEW_CORNERS: &str = "face with fewer than three corners; remove it";

// glTF
pub(crate) const GLB_CUT_OFF: &str = "GLB is cut off; export anew";

pub(crate) const GLB_VERSION: &str = ", and not 2; export anew";

pub(crate) const NO_JSON: &str = "glTF isn't JSON; export anew";

pub(crate) const DRACO: &str =
    "glTF with Draco's compression isn't read; export without compression";

pub(crate) const MESHOPT: &str =
    "glTF with meshopt's compression isn't read; export without compression";

pub(crate) const INSTANCES: &str =
    "glTF with EXT_mesh_gpu_instancing isn't read; export as STL, OBJ, PLY or OFF";

pub(crate) const NO_BUFFER: &str = ": isn't in the file; export as GLB";

pub(crate) const NO_SCENE: &str = "glTF has no scene; export anew";

pub(crate) const PART_NOT_UNDERSTOOD: &str = "not understood; export anew";

pub(crate) const TWICE_IN_SCENE: &str = "the scene has a node twice; export anew";

pub(crate) const TRANSFORM: &str =
    "is moved, turned or scaled; apply the transforms and export anew";

pub(crate) const SPARSE: &str = "sparse accessors aren't read; export as STL, OBJ, PLY or OFF";

pub(crate) const TOO_MANY: &str =
    "more than 16777216 points or corners of triangles; simplify the mesh";

// Formats that aren't read
pub(crate) const ZIP: &str =
    "3MF and other zip archives aren't read; export as STL, OBJ, PLY or OFF";

pub(crate) const GZIP: &str = "gzip isn't read; unpack the file";

pub(crate) const FBX: &str = "FBX isn't read; export as STL, OBJ, PLY or OFF";

pub(crate) const STEP: &str = "STEP isn't read; export as STL, OBJ, PLY or OFF";

pub(crate) const VRML: &str = "VRML isn't read; export as STL, OBJ, PLY or OFF";

pub(crate) const COLLADA: &str = "COLLADA isn't read; export as STL, OBJ, PLY or OFF";

pub(crate) const AMF: &str = "AMF isn't read; export as STL, OBJ, PLY or OFF";

pub(crate) const HTML: &str = "an HTML page and no mesh; download the mesh itself";
