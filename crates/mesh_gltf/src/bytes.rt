// Numbers and points in bytes, the lowest byte first.
ghost use Rattle.std.specs.Prelude.{◌≡◌, ◌+◌, ◌≤◌, length};
ghost use Rattle.std.specs.Option.{option_map};
ghost use Rattle.mesh_read.specs.Surface.Surfaces.{point_of};
ghost use Rattle.mesh_read.specs.Stl.Binary.{number_at, point_at};

use mesh_number::binary32;
use mesh_read::Vertex;

// The number of four bytes.
#[tactic(none)]
pub(crate) fn read_number(bytes: &[u8], at: usize) -> u32
    requires { at + 4 ≤ length bytes.now }
    ensures { result ≡ number_at bytes.now at }
{
    u32::from(bytes[at])
        + u32::from(bytes[at + 1]) * 256
        + u32::from(bytes[at + 2]) * 65_536
        + u32::from(bytes[at + 3]) * 16_777_216
}

// The point of three binary32, if all are finite.
#[tactic(none)]
pub(crate) fn read_point(bytes: &[u8], at: usize) -> Option<Vertex<'static>>
    requires { at + 12 ≤ length bytes.now }
    ensures { option_map point_of result ≡ point_at bytes.now at }
{
    let x = binary32(read_number(bytes, at))?;
    let y = binary32(read_number(bytes, at + 4))?;
    let z = binary32(read_number(bytes, at + 8))?;
    Some(Vertex { x, y, z })
}
