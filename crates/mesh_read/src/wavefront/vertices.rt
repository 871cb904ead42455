// The vertex of a line.
ghost use Rattle.std.specs.Prelude.{◌≡◌, map, IfOk, IfErr, Ok, Err};
ghost use Rattle.mesh_number.specs.Number.Values.{value_of};
ghost use Rattle.mesh_read.specs.Scan.Parts.{piece_of};
ghost use Rattle.mesh_read.specs.Surface.Surfaces.{point_of};
ghost use Rattle.mesh_read.specs.Wavefront.Faults.{fault_of};
ghost use Rattle.mesh_read.specs.Wavefront.ReadWavefront.{coordinate_in, point_in};

use crate::scan::Part;
use crate::surface::Vertex;
use crate::wavefront::fault::WavefrontFault;
use mesh_number::{Number, read_decimal};

fn read_coordinate<'a>(line: u32, word: Part<'a>) -> Result<Number<'a>, WavefrontFault<'a>>
    ensures ok { IfOk result (λ n. coordinate_in line (piece_of word.entry) ≡ Ok (value_of n)) }
    ensures fault { IfErr result (λ e. coordinate_in line (piece_of word.entry) ≡ Err (fault_of e)) }
{
    match read_decimal(word.bytes) {
        Some(number) => Ok(number),
        None => Err(WavefrontFault::NotANumber(line, word.bytes)),
    }
}

// The vertex that these words of a line give.
pub(crate) fn read_vertex<'a>(
    line: u32,
    words: &[Part<'a>],
) -> Result<Vertex<'a>, WavefrontFault<'a>>
    ensures ok { IfOk result (λ v. point_in line (map piece_of words.now) ≡ Ok (point_of v)) }
    ensures fault { IfErr result (λ e. point_in line (map piece_of words.now) ≡ Err (fault_of e)) }
{
    let [x, y, z, ..] = words else {
        return Err(WavefrontFault::FewCoordinates(line));
    };
    let x = read_coordinate(line, *x)?;
    let y = read_coordinate(line, *y)?;
    let z = read_coordinate(line, *z)?;
    Ok(Vertex { x, y, z })
}
