//! Doubles vertices where parts of a mesh only touch, so that each edge has two triangles.
#![tactic(auto)]

mod check;
mod classes;
mod cut;
mod edge_set;
mod edge_triangle;
mod edge_triangles;
mod edges;
mod middles;
mod pairing;
mod pinched;
mod ring;
mod split;
mod turns;

pub use cut::{CutMesh, cut_pinched};
pub use split::{CheckedSplit, SplitMesh, points_of, split_vertices};
