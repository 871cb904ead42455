// The vertex that a reference names.
ghost use Rattle.std.specs.Prelude.{◌≡◌, Ok, Err, IfOk, IfErr};
ghost use Rattle.mesh_read.specs.Scan.Parts.{piece_of};
ghost use Rattle.mesh_read.specs.Wavefront.Faults.{fault_of};
ghost use Rattle.mesh_read.specs.Wavefront.ReadWavefront.{counted, vertex_at, corner_in};

use crate::scan::{Part, cut_before};
use crate::wavefront::fault::WavefrontFault;
use mesh_number::number_in;

// The index of the vertex with this number, counted from 1, or back from the last.
fn count_to(vertices: u32, back: bool, number: u64) -> Option<u32>
    ensures { result ≡ counted vertices back number }
{
    if number == 0 || number > u64::from(vertices) {
        return None;
    }
    let number = number as u32;
    Some(if back { vertices - number } else { number - 1 })
}

// The vertex that the part of a reference before its first slash names.
#[tactic(auto, using(crate::proofs::Counts::number_counted, crate::proofs::Counts::no_number))]
fn find_vertex(vertices: u32, number: &[u8]) -> Option<u32>
    ensures { result ≡ vertex_at vertices number.now }
{
    let (back, digits) = match number.split_first() {
        Some((b'-', rest)) => (true, rest),
        _ => (false, number),
    };
    count_to(vertices, back, number_in(digits)?)
}

// The index of the vertex that a reference of a line names, of this number of vertices.
pub(crate) fn read_reference<'a>(
    line: u32,
    vertices: u32,
    reference: Part<'a>,
) -> Result<u32, WavefrontFault<'a>>
    ensures ok { IfOk result (λ corner. corner_in line vertices (piece_of reference.entry) ≡ Ok corner) }
    ensures fault { IfErr result (λ e. corner_in line vertices (piece_of reference.entry) ≡ Err (fault_of e)) }
{
    match find_vertex(vertices, cut_before(reference, b'/').0.bytes) {
        Some(corner) => Ok(corner),
        None => Err(WavefrontFault::UnknownVertex(line, reference.bytes)),
    }
}
