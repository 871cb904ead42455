//! Mesh files as surfaces: STL, OFF and OBJ, and what their readers share with that of PLY.
#![tactic(auto)]

mod off;
mod scan;
mod stl;
mod surface;
mod wavefront;

pub use off::{OffFault, begins_with_count, is_off, read_off};
pub use scan::{Blanks, Part, Span, cut_before, next_line, next_word, next_word_between};
pub use stl::{StlFault, is_ascii_stl, is_binary_stl, read_stl};
pub use surface::{Facet, Flaw, Surface, Vertex, as_mesh, push_fan};
pub use wavefront::{WavefrontFault, read_wavefront};
