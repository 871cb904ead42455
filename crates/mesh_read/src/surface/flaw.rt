// What no mesh has.
ghost use Rattle.std.specs.Prelude.{◌≡◌, Some, None, IfOk, IfErr};
ghost use Rattle.mesh_read.specs.Surface.Surfaces.{content_of};
ghost use Rattle.mesh_read.specs.Surface.Flaws.{flaw_in};

use crate::surface::surface::{Surface, first_too_large};

/// Why a surface is no mesh.
#[derive(Clone, Copy, Debug, PartialEq, Eq)]
pub enum Flaw {
    /// It has no triangles.
    NoTriangles,
    /// The triangle at this place is the first with a coordinate of 10^15 or more in size.
    TooLarge(u32),
}

/// The surface, if it is a mesh.
#[tactic(auto, using(crate::proofs::FarPoints::far_by_content))]
pub fn as_mesh<'a>(surface: Surface<'a>) -> Result<Surface<'a>, Flaw>
    ensures same { IfOk result (λ s. s ≡ surface.entry) }
    ensures ok { IfOk result (λ s. flaw_in (content_of s) ≡ None) }
    ensures flaw { IfErr result (λ flaw. flaw_in (content_of surface.entry) ≡ Some flaw) }
{
    if surface.facets.is_empty() {
        return Err(Flaw::NoTriangles);
    }
    match first_too_large(&surface) {
        Some(place) => Err(Flaw::TooLarge(place)),
        None => Ok(surface),
    }
}
