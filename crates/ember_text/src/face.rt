// The text of a ring's face.
ghost use Rattle.std.specs.Prelude.{◌≡◌, OnOk, OnErr};
ghost use Rattle.ember_model.specs.Faces.{flipped_face};
ghost use Rattle.ember_model.specs.Planes.{opposite};
ghost use Rattle.ember_model.specs.Valid.{IsValidPlane};
ghost use Rattle.ember_width.specs.Broad.{IsBroadPlane};
ghost use Rattle.ember_text.specs.Texts.{Extends, Writes, oriented_face};

use crate::edges::{put_edges, put_support, put_turned_edges};
use ember_model::{OutOfMemory, Plane};
use ember_poly::{Ring, outline, support};
use std::alloc::Global;

// The same plane with the opposite front.
pub(crate) fn opposite_plane(p: &Plane) -> Plane
    requires { IsBroadPlane p.now }
    ensures value { result ≡ opposite p.now }
    ensures valid { IsValidPlane p.now → IsValidPlane result }
{
    Plane {
        a: -p.a,
        b: -p.b,
        c: -p.c,
        d: -p.d,
    }
}

// Appends the lines of the face.
fn put_face(r: &Ring, out: &mut Vec<u8>) -> Result<(), OutOfMemory>
    ensures ok { OnOk result (Writes r.now out.old.items out.new.items) }
    ensures fault { OnErr result (Extends out.old.items out.new.items) }
{
    let (edges, corners) = outline(r);
    put_support(&support(r), edges.len(), out)?;
    put_edges(edges, corners, out)
}

// Appends the lines of the face with the opposite front.
fn put_flipped_face(r: &Ring, out: &mut Vec<u8>) -> Result<(), OutOfMemory>
    ensures ok { OnOk result (Writes (flipped_face r.now) out.old.items out.new.items) }
    ensures fault { OnErr result (Extends out.old.items out.new.items) }
{
    let (edges, corners) = outline(r);
    put_support(&opposite_plane(&support(r)), edges.len(), out)?;
    put_turned_edges(edges, corners, out)
}

// Appends the lines of the face, or, if `flipped`, of the same face with the opposite front.
fn put_oriented_face(r: &Ring, flipped: bool, out: &mut Vec<u8>) -> Result<(), OutOfMemory>
    ensures ok { OnOk result (Writes (oriented_face r.now flipped) out.old.items out.new.items) }
    ensures fault { OnErr result (Extends out.old.items out.new.items) }
{
    if flipped {
        put_flipped_face(r, out)
    } else {
        put_face(r, out)
    }
}

/// Appends the lines of the face: its support plane, and then its edges in order with their start
/// corners in lowest terms. If `flipped`, it is the face with the opposite front. The only error is
/// out-of-memory; then nothing is appended.
pub fn face_text(
    _alloc: Global,
    r: &Ring,
    flipped: bool,
    out: &mut Vec<u8>,
) -> Result<(), OutOfMemory>
    ensures ok { OnOk result (Writes (oriented_face r.now flipped) out.old.items out.new.items) }
    ensures fault { OnErr result (out.new.items ≡ out.old.items) }
{
    let begun = out.len();
    let written = put_oriented_face(r, flipped, out);
    if written.is_err() {
        out.truncate(begun);
    }
    written
}
