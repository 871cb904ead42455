// Planes that the widths take.
ghost use Rattle.ember_model.specs.Valid.{IsValidPlane};
ghost use Rattle.ember_width.specs.Broad.{IsBroadPlane};

use ember_model::Plane;

const MOST_NORMAL: i64 = 1_099_511_627_775;

const MOST_CONSTANT: i64 = 4_611_686_018_427_387_903;

/// The plane with these numbers, if they are within what the broad grid takes.
pub fn broad_plane(numbers: [i64; 4]) -> Plane
    ensures { IsBroadPlane result }
{
    Plane {
        a: numbers[0].clamp(-MOST_NORMAL, MOST_NORMAL),
        b: numbers[1].clamp(-MOST_NORMAL, MOST_NORMAL),
        c: numbers[2].clamp(-MOST_NORMAL, MOST_NORMAL),
        d: numbers[3].clamp(-MOST_CONSTANT, MOST_CONSTANT),
    }
}

/// The plane with this normal and constant.
pub fn narrow_plane(numbers: [i16; 4]) -> Plane
    ensures { IsValidPlane result }
{
    Plane {
        a: i64::from(numbers[0]),
        b: i64::from(numbers[1]),
        c: i64::from(numbers[2]),
        d: i64::from(numbers[3]),
    }
}
