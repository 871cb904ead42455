// Why the faces of a document get no triangles: they aren't closed along a line, or two of them
// overlap in a plane.

mod apart;
mod closed_lines;
mod law;
mod numbered;
mod overlap;

pub use closed_lines::are_lines_closed;
pub use law::faces_with_a_common_inside_point_are_not_apart;
pub use overlap::have_overlap;
