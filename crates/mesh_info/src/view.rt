// The page that shows surfaces.

mod files;
mod floats;
mod views;

pub use views::view_of;
