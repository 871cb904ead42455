//! Reads the vertices and triangles of a PLY file, ASCII or binary, exactly. Whatever else the file
//! holds is passed over.
#![tactic(auto)]

mod cursor;
mod declarations;
mod elements;
mod entries;
mod fault;
mod header;
mod names;
mod place;
mod properties;
mod reading;
mod row;
mod row_reading;
mod scalars;
mod words;

pub use fault::PlyFault;
pub use reading::read_ply;
