//! What info prints of a mesh file, and what view shows of it.
#![tactic(auto)]

mod info;
mod page;
mod view;

pub use info::{BoundingBox, Info, info_of, put_info, put_quoted, triangles_of};
pub use page::page_bytes;
pub use view::view_of;
