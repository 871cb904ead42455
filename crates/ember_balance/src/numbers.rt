// Directed edges as numbers, in the order of x, y and z of the start and then of the end.
ghost use Rattle.std.specs.Prelude.{◌≡◌, ◌<◌, ◌+◌, ◌*◌, ◌^◌};
ghost use Rattle.ember_model.specs.declared.point.Corner.{Corner};
ghost use Rattle.ember_model.specs.Limits.{broad_limit};
ghost use Rattle.ember_model.specs.Within.{IsCornerWithin};
ghost use Rattle.ember_model.specs.Meshes.{Edge};
ghost use Rattle.ember_balance.specs.Numbers.{corner_number, edge_number, two_way_number, has_one_end, IsBroadEdge};

use ember_model::Corner;

// The number of a corner, of 60 bits: 20 for each coordinate.
fn corner_number(c: &Corner) -> u64
    requires { IsCornerWithin broad_limit c.now }
    ensures value { result ≡ corner_number c.now }
    ensures small { result < 2 ^ 60 }
{
    ((c.x + 524_287) as u64 * 1_048_576 + (c.y + 524_287) as u64) * 1_048_576
        + (c.z + 524_287) as u64
}

/// The number of the edge from one corner to another, of 120 bits.
pub fn edge_number(from: &Corner, to: &Corner) -> u128
    requires from { IsCornerWithin broad_limit from.now }
    requires to { IsCornerWithin broad_limit to.now }
    ensures { result ≡ edge_number (record { from = from.now; to = to.now }) }
{
    joined(corner_number(from), corner_number(to))
}

// The number of the edge between the corners with these numbers.
fn joined(from: u64, to: u64) -> u128
    requires from { from < 2 ^ 60 }
    requires to { to < 2 ^ 60 }
    ensures value { result ≡ from * 2 ^ 60 + to }
    ensures small { result < 2 ^ 120 }
{
    from as u128 * 1_152_921_504_606_846_976 + to as u128
}

/// A number of 121 bits: 2n for an edge that goes from the corner of lower number to the other one
/// and has the number n, and 2n + 1 for its reverse.
pub fn two_way_number(from: &Corner, to: &Corner) -> u128
    requires from { IsCornerWithin broad_limit from.now }
    requires to { IsCornerWithin broad_limit to.now }
    ensures { result ≡ two_way_number (record { from = from.now; to = to.now }) }
{
    let start = corner_number(from);
    let end = corner_number(to);
    if end < start {
        2 * joined(end, start) + 1
    } else {
        2 * joined(start, end)
    }
}

/// Whether both ends of the edge with this number are one corner.
pub fn has_one_end(number: u128) -> bool
    ensures { result ≡ has_one_end number }
{
    number / 1_152_921_504_606_846_976 == number % 1_152_921_504_606_846_976
}

// The corner with this number.
fn corner_of(number: u64) -> Corner
    requires { number < 2 ^ 60 }
    ensures { (c : Corner) → IsCornerWithin broad_limit c → corner_number c ≡ number → result ≡ c }
{
    Corner {
        x: (number / 1_099_511_627_776) as i32 - 524_287,
        y: (number / 1_048_576 % 1_048_576) as i32 - 524_287,
        z: (number % 1_048_576) as i32 - 524_287,
    }
}

/// The ends of the edge with this number.
pub fn ends_of(number: u128) -> (Corner, Corner)
    requires { number < 2 ^ 120 }
    ensures { (e : Edge) → IsBroadEdge e → edge_number e ≡ number → record { from = result.0; to = result.1 } ≡ e }
{
    let from = number / 1_152_921_504_606_846_976;
    let to = number % 1_152_921_504_606_846_976;
    (corner_of(from as u64), corner_of(to as u64))
}
