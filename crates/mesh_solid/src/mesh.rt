// Faces as certified triangles: of the solid of an expression over a scene, on both grids, and of a
// face file.

mod broad;
mod document;
mod fault;
mod law;
mod mesh;
mod solid;

pub use broad::broad_solid_mesh;
pub use document::document_mesh;
pub use fault::{DocumentFault, SolidFault};
pub use law::{
    faces_of_meshes_have_the_meaning, meshes_of_solids_have_the_meaning,
    triangles_of_documents_wind_as_faces, triangles_of_meshes_have_the_meaning,
};
pub use mesh::SolidMesh;
pub use solid::{SolidRun, solid_mesh};
