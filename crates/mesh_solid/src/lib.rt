//! The exact mesh of a result: outlines of its faces, tables of its planes, lines and corners, and
//! triangles that wind as the faces do.
#![tactic(auto)]

mod mesh;
mod outline;
mod refusal;
mod tables;
mod winding;

pub use mesh::{
    DocumentFault, SolidFault, SolidMesh, SolidRun, broad_solid_mesh, document_mesh,
    faces_of_meshes_have_the_meaning, meshes_of_solids_have_the_meaning, solid_mesh,
    triangles_of_documents_wind_as_faces, triangles_of_meshes_have_the_meaning,
};
pub use outline::{OutlineFault, check_outline, round_faces_are_outlined};
pub use refusal::{are_lines_closed, faces_with_a_common_inside_point_are_not_apart, have_overlap};
pub use tables::{TableFault, Tables, tables_of};
pub use winding::certified_triangles_wind_as_faces;
