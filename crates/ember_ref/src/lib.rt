//! The reference points of boxes: points next to their least corners that lie on no triangle's
//! plane. The sign of a plane there, and the winding numbers of a scene, shifted from the reference
//! point of a box to that of its half by the triangles near the box alone.
#![tactic(auto)]

mod law;
mod shifting;
mod signs;

pub use law::reference_points_are_clear;
pub use shifting::{shift, shift_listed_on};
pub use signs::{lex_side, or_sign, side_beside};
