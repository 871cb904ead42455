//! How far the triangles of a file may be from the exact ones: a closed surface whose corners move by
//! at most a distance winds as before around each point that is farther from it than that.
#![tactic(auto)]

mod law;

pub use law::{
    moved_meshes_wind_as_before, moved_surfaces_stay_near, moved_surfaces_wind_as_before,
    rounded_triangles_stay_near, similar_triangles_wind_alike, written_triangles_have_the_meaning,
    written_triangles_have_the_meaning_of_the_grid,
};
