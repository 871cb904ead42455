// Triangles and planes of the tests.
ghost use Rattle.ember_model.specs.Valid.{IsValidPlane};

use ember_model::{Corner, Plane, Tri};

pub const O: Corner = Corner { x: 0, y: 0, z: 0 };

pub const X: Corner = Corner { x: 1, y: 0, z: 0 };

pub const Y: Corner = Corner { x: 0, y: 1, z: 0 };

pub const Z: Corner = Corner { x: 0, y: 0, z: 1 };

/// The triangles of the tetrahedron with the corners 0 and the unit points, outward.
pub static TETRA: [Tri; 4] = [
    Tri {
        a: O,
        b: Y,
        c: X,
        mesh: 1,
    },
    Tri {
        a: O,
        b: X,
        c: Z,
        mesh: 1,
    },
    Tri {
        a: O,
        b: Z,
        c: Y,
        mesh: 1,
    },
    Tri {
        a: X,
        b: Y,
        c: Z,
        mesh: 1,
    },
];

/// The plane with this normal and constant.
pub fn plane(numbers: [i16; 4]) -> Plane
    ensures { IsValidPlane result }
{
    Plane {
        a: i64::from(numbers[0]),
        b: i64::from(numbers[1]),
        c: i64::from(numbers[2]),
        d: i64::from(numbers[3]),
    }
}
