//! Reads the triangles of an OBJ file.
#![tactic(auto)]

mod fault;
mod lines;
mod reading;
mod references;
mod scan;
mod vertex;

pub use fault::ObjFault;
pub use reading::read_obj;
