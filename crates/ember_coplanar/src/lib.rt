//! Coplanar triangles, and which of them owns a region of their plane. Only tests call these
//! functions: ember_leaf finds owners as it cuts. Its proofs use the lemmas of this crate.
#![tactic(auto)]

mod owner;
mod plane;

pub use owner::{contains, is_owner};
pub use plane::same_plane;
