//! How the words place files: by which steps, and which files are turned inside out; and the images of their surfaces.
//! And the words that are shapes in the place of files.
#![tactic(auto)]

mod files;
mod image;
mod shapes;
mod words;

pub use files::{PlaceFault, Placing, are_files, first_place_fault, placings_of};
pub use image::{ImageFault, image_by};
pub use shapes::{Cylinder, Shape, ShapeWordFault, first_shape_fault, shape_of};
pub use words::{TextFault, read_steps};
