// From surfaces to a scene: their triangles on one grid, each surface a closed mesh.

mod counting;
mod counts;
mod edges;
mod fault;
mod laws;
mod scene;
mod surface;

pub use counts::Counts;
pub use fault::{Open, SceneFault};
pub use laws::closed_surfaces_are_never_open;
pub use scene::{PlacedScene, scene_of};
