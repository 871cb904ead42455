// The planes, lines and corners of faces by numbers: equal ones have one number.

mod corner;
mod draft;
mod face_edge;
mod fault;
mod keyed;
mod numbering;
mod plane_entry;
mod tables;

pub use fault::TableFault;
pub(crate) use numbering::number_of;
pub(crate) use plane_entry::{PlaneEntry, entry_of};
pub use tables::{Tables, tables_of};
