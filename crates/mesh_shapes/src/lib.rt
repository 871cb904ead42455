//! Boxes and cylinders as files: their texts, and a shelf that has them beside the files of another.
#![tactic(auto)]

mod decimals;
mod files;
mod shapes;
mod shelf;
mod texts;

pub use shapes::{shape_text, shape_texts_are_read};
pub use shelf::ShapeShelf;
