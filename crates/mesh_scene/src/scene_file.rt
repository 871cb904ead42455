// The files that keep a scene on its grid: each mesh as an OBJ in steps of the grid, and the scene
// as JSON, from which the grid is read again.

mod fault;
mod laws;
mod mesh;
mod numbers;
mod reading;
mod writing;

pub use fault::SceneFileFault;
pub use laws::{scenes_have_one_grid, written_scenes_are_read};
pub use mesh::grid_mesh;
pub use reading::read_grid;
pub use writing::scene_text;
