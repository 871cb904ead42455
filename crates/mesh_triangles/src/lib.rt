//! From the segments of faces to certified triangles. Along each line opposite segments of one
//! plane cancel, and what is left bounds the plane's part. The parts are cut into triangles, and
//! lines are split where corners lie inside segments, until there are none. The last step checks
//! all triangles.
#![tactic(auto)]

mod boundaries;
mod certified;
mod corner_order;
mod cutting;
mod executor;
mod face_edges;
mod fault;
mod marks;
mod parts;
mod query;
mod rounds;
mod shares;
mod split;
mod strand;
mod tables;
mod through;
mod walk;

pub use certified::certified_triangles;
pub use executor::{answer_planes_alone, answer_planes_by_workers};
pub use fault::TrianglesFault;
pub use query::{PlaneAnswer, PlaneQuery};
