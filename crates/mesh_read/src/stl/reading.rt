// An STL file of either form.
ghost use Rattle.std.specs.Prelude.{◌≡◌, ◌≤◌, Ok, Err, length, IfOk, IfErr};
ghost use Rattle.ember_model.specs.Limits.{most_bytes};
ghost use Rattle.mesh_read.specs.Surface.Surfaces.{content_of, IsSurface};
ghost use Rattle.mesh_read.specs.Stl.Facets.{IsErrorOf};
ghost use Rattle.mesh_read.specs.Stl.ReadStl as spec;

use crate::stl::ascii::read_ascii;
use crate::stl::binary::read_binary;
use crate::stl::fault::StlFault;
use crate::stl::kind::{count_facets, is_ascii_stl, is_binary_stl};
use crate::surface::{Flaw, Surface, as_mesh};
use std::alloc::Global;

fn fault_of(flaw: Flaw, binary: bool) -> StlFault
    ensures { result ≡ spec.of_flaw binary flaw }
{
    match flaw {
        Flaw::NoTriangles => StlFault::NoTriangles,
        Flaw::TooLarge(place) if binary => StlFault::LargeInFacet(place),
        Flaw::TooLarge(place) => StlFault::LargeInLine(place),
    }
}

// The same surface, if it is a mesh.
fn checked<'a>(surface: Surface<'a>, binary: bool) -> Result<Surface<'a>, StlFault>
    requires { IsSurface surface }
    ensures ok { IfOk result (λ s. spec.checked binary (Ok (content_of surface.entry)) ≡ Ok (content_of s)) }
    ensures fault { IfErr result (λ e. spec.checked binary (Ok (content_of surface.entry)) ≡ Err e) }
    ensures surface { IfOk result (λ s. IsSurface s) }
{
    match as_mesh(surface) {
        Ok(surface) => Ok(surface),
        Err(flaw) => Err(fault_of(flaw, binary)),
    }
}

/// The triangles of an STL file, each with its facet or its line from 1, or the file's first fault.
/// Each triangle has three vertices of its own, in the file's order. Coordinates in ASCII borrow
/// their text from the bytes.
///
/// A file of exactly 84 + 50 n bytes for its count n is binary. Otherwise it is ASCII if its first
/// word is `solid` and `facet` or `endsolid` occurs in its first 4,096 bytes. Any other file is
/// refused as a binary STL that was cut off. Normals, names and attributes are passed over, and
/// several solids are one mesh. There are at most 2^28 bytes.
pub fn read_stl(alloc: Global, bytes: &[u8]) -> Result<Surface<'_>, StlFault>
    requires { length bytes.now ≤ most_bytes }
    ensures ok { IfOk result (λ s. spec.read_stl_of bytes.now ≡ Ok (content_of s)) }
    ensures fault { IfErr result (IsErrorOf (spec.read_stl_of bytes.now)) }
    ensures surface { IfOk result (λ s. IsSurface s) }
{
    if is_binary_stl(bytes) {
        checked(read_binary(alloc, bytes)?, true)
    } else if is_ascii_stl(bytes) {
        checked(read_ascii(alloc, bytes)?, false)
    } else {
        Err(StlFault::CutOff(count_facets(bytes)))
    }
}
