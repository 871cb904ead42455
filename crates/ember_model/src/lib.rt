//! The words of the whole project: corners and triangles, planes and points, faces, winding vectors
//! and scenes. Defines crossing, winding, clear points and balance. Its calls give the planes and
//! the face of a triangle, and crossings, and test whether a point is clear. README.md says in
//! which order to read the files of specs/.
#![tactic(auto)]

mod clearness;
mod corner;
mod face;
mod plane;
mod point;
mod rays;
mod scene;
mod tri;
mod triangle_planes;
mod values;
mod vector;
mod vector3;

pub use clearness::{clear, face_clear};
pub use corner::is_same_corner;
pub use face::{Face, FaceList};
pub use plane::{Plane, Planes};
pub use point::{Axis, Corner, Spot};
pub use rays::{crossing, face_crossing, leg};
pub use scene::Scene;
pub use tri::{Lines, Soup, Tri, Tris};
pub use triangle_planes::{
    OutOfMemory, edge_plane, face_of, has_no_normal, main_axis, main_edges, support_of,
};
pub use values::plane_value;
pub use vector::Vector;
