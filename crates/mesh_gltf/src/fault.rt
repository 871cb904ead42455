// What makes a document no mesh.
ghost use Rattle.std.specs.Prelude.{◌≡◌};
ghost use Rattle.mesh_gltf.specs.ReadGltf.{of_flaw};

use mesh_read::Flaw;
use thiserror::Error;

/// The first fault of a document, or out-of-memory. Nodes, meshes, accessors and buffers are
/// counted from 0, as in the document, and triangles from 1.
#[derive(Clone, Copy, Debug, PartialEq, Eq, Error)]
pub enum GltfFault {
    /// A GLB ends within its header or its first chunk.
    #[error("GLB is cut off")]
    CutOff,
    /// A GLB of another version than 2.
    #[error("GLB of version {0}")]
    Version(u32),
    /// It isn't JSON: the first chunk of a GLB, or the file if it is no GLB.
    #[error("no JSON")]
    NoJson,
    /// The document requires Draco's compression of meshes.
    #[error("Draco compression")]
    Draco,
    /// The document requires the compression of meshoptimizer.
    #[error("meshopt compression")]
    Meshopt,
    /// The document requires instances of meshes (`EXT_mesh_gpu_instancing`).
    #[error("instances of meshes")]
    Instances,
    /// This buffer isn't in the file, or its URI isn't base64.
    #[error("buffer {0} isn't in the file")]
    NoBuffer(usize),
    /// There is no scene, or the scene has no list of nodes.
    #[error("no scene")]
    NoScene,
    /// There is no node of this index, or its children or its mesh aren't indices.
    #[error("node {0} not understood")]
    Node(u32),
    /// The scene has a node twice: it has two parents, or is below itself. This is the first node that is
    /// more than there are.
    #[error("node {0}: the scene has a node twice")]
    TwiceInScene(u32),
    /// This node moves, turns or scales its mesh.
    #[error("node {0}: has a transform")]
    Transform(u32),
    /// There is no mesh of this index, or its primitives aren't understood.
    #[error("mesh {0} not understood")]
    Mesh(u32),
    /// There is no accessor of this index, or its numbers aren't those that are needed, or they
    /// aren't all in its buffer.
    #[error("accessor {0} not understood")]
    Accessor(u32),
    /// This accessor is sparse.
    #[error("accessor {0}: sparse")]
    Sparse(u32),
    /// A coordinate in this accessor is infinite or NaN.
    #[error("accessor {0}: a coordinate is not a finite number")]
    NotFinite(u32),
    /// A primitive of this mesh names a vertex that isn't there.
    #[error("mesh {0}: names a vertex that isn't there")]
    NoSuchVertex(u32),
    /// The scene has more than 16,777,216 points, or more corners of triangles.
    #[error("too many triangles")]
    TooMany,
    /// There are no triangles.
    #[error("no triangles in it")]
    NoTriangles,
    /// This triangle is the first with a coordinate of 10^15 or more in size.
    #[error("triangle {0}: a coordinate of 1e15 or more")]
    TooLarge(u32),
    #[error("out of memory")]
    OutOfMemory,
}

impl From<Flaw> for GltfFault {
    ghost from_gives = { λ flaw e. e ≡ of_flaw flaw };

    fn from(flaw: Flaw) -> GltfFault {
        match flaw {
            Flaw::NoTriangles => GltfFault::NoTriangles,
            Flaw::TooLarge(triangle) => GltfFault::TooLarge(triangle),
        }
    }
}
