// Vertices.
ghost use Rattle.std.specs.Prelude.{◌≡◌, ◌≤◌};
ghost use Rattle.ember_dec.specs.Decimal.{coordinate_of};
ghost use Rattle.ember_obj.specs.Scan.{fields_of, first_three};
ghost use Rattle.ember_obj.specs.ReadObj.{coordinate_at, corner_in};

use crate::fault::ObjFault;
use crate::scan::three_fields;
use ember_dec::coordinate;
use ember_model::Corner;

// One coordinate of a line.
fn read_coordinate(places: u8, line: u32, text: &[u8]) -> Result<i32, ObjFault>
    requires { places ≤ 3 }
    ensures { result ≡ coordinate_at line (coordinate_of places text.now) }
{
    match coordinate(text, places) {
        Ok(x) => Ok(x),
        Err(fault) => Err(ObjFault::Coordinate(line, fault)),
    }
}

// The vertex that the fields of a line give.
pub(crate) fn read_vertex(places: u8, line: u32, fields: &[u8]) -> Result<Corner, ObjFault>
    requires { places ≤ 3 }
    ensures { result ≡ corner_in places line (first_three (fields_of fields.now)) }
{
    let Some((x, y, z)) = three_fields(fields) else {
        return Err(ObjFault::Word(line));
    };
    let x = read_coordinate(places, line, x)?;
    let y = read_coordinate(places, line, y)?;
    let z = read_coordinate(places, line, z)?;
    Ok(Corner { x, y, z })
}
