//! The solid of an expression over meshes in arrays: vertices and triangles in, vertices and triangles out.
#![tactic(auto)]

mod arrays;
mod asked;
mod inputs;
mod lines;
mod outcome;
mod placing;
mod solid;
mod sources;
mod surfaces;

pub use asked::ArrayRequest;
pub use inputs::InputTriangle;
pub use outcome::{ArrayOutcome, boolean};
pub use placing::{PlacedArrays, placed_arrays};
pub use solid::{ArraySolid, array_solid};
pub use sources::{ArraySource, SEVERAL, TURNED};
pub use surfaces::surfaces_of;
