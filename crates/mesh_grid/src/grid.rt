// Puts the surfaces of a scene on one grid: its step and its offset, and the triangles of each
// surface with their corners on it.

mod choice;
mod coordinates;
mod corners;
mod counting;
mod extent;
mod fault;
mod grid;
mod images;
mod laws;
mod lengths;
mod marks;
mod places;
mod snapping;

pub use choice::{Wanted, grid_of};
pub use counting::count_images;
pub use extent::SceneExtent;
pub use fault::{GridFault, SnapFault};
pub use grid::Grid;
pub use laws::maps_keep_meshes_closed;
pub use marks::corner_marks;
pub use places::place_of_edge;
pub use snapping::{Snapped, snap_surface};
