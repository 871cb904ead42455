// A box that halving made from the root.
ghost use Rattle.std.specs.Prelude.{◌≡◌, ◌<◌, ◌≤◌, ◌^◌, [], ◌∷◌, All, pos};
ghost use Rattle.ember_model.specs.Limits.{root_side, wall_limit};
ghost use Rattle.ember_algebra.specs.Size.{Small};
ghost use Rattle.ember_box.specs.Boxes as boxes;
ghost use Rattle.ember_box.specs.Boxes.{IsCell};

use ember_model::Axis;
use std::marker::Model;

/// The half-open box from its least corner `lo` on, with the side `2^log` along each axis, in
/// units. Along each axis `lo + 2048` is a multiple of the side. The box's depth is 36 less the sum
/// of the three logs: the number of halvings that made it of the root. Its path has one binary
/// digit more than its depth.
#[derive(Drop)]
pub struct Cell {
    pub lo: [i32; 3],
    pub log: [u8; 3],
    pub path: u64,
}

impl Model for Cell {
    ghost use Rattle.ember_box.specs.Boxes.{Cell as CellView, cell_code, cell_of, IsCell};

    ghost Value = { CellView };

    ghost coded = { cell_code };

    ghost view = { λ a. cell_of a.lo a.log a.path };

    ghost invariant = { λ a. IsCell (cell_of a.lo a.log a.path) };
}

/// The root box, `[-2048, 2048)^3`, with path 1.
pub fn root() -> Cell
    ensures { result ≡ boxes.root }
{
    Cell {
        lo: [-2048, -2048, -2048],
        log: [12, 12, 12],
        path: 1,
    }
}

impl Cell {
    /// The same box.
    pub fn copy(&self) -> Cell
        ensures { result ≡ self.now }
    {
        Cell {
            lo: self.lo,
            log: self.log,
            path: self.path,
        }
    }

    /// The path of the box.
    pub fn path(&self) -> u64
        ensures { result ≡ self.now.path }
    {
        self.path
    }

    /// Its least corner, in units: at least -2048 along each axis.
    pub fn lo(&self) -> [i32; 3]
        ensures value { result ≡ self.now.lo.x ∷ self.now.lo.y ∷ self.now.lo.z ∷ [] }
        ensures small { All (Small wall_limit) result }
    {
        [self.low(Axis::X), self.low(Axis::Y), self.low(Axis::Z)]
    }

    /// The coordinate of its least corner along an axis, in units.
    pub fn low(&self, axis: Axis) -> i32
        ensures value { result ≡ boxes.low self.now axis }
        ensures small { Small wall_limit result }
        ensures kept { IsCell self.now }
    {
        self.lo[axis_index(axis)]
    }

    /// Its side along an axis, in units: a power of two up to 4096.
    pub fn side(&self, axis: Axis) -> i32
        ensures { result ≡ boxes.side self.now axis }
    {
        side_of(self.log[axis_index(axis)])
    }

    /// The binary logarithm of its side along an axis, up to 12.
    pub fn log(&self, axis: Axis) -> u8
        ensures { result ≡ self.now.log axis }
    {
        match axis {
            Axis::X => self.log[0],
            Axis::Y => self.log[1],
            Axis::Z => self.log[2],
        }
    }
}

// The index of an axis in the order x, y, z.
fn axis_index(k: Axis) -> usize
    ensures axis_index { result ≡ boxes.axis_index k }
    ensures below { result < 3 }
{
    match k {
        Axis::X => 0,
        Axis::Y => 1,
        Axis::Z => 2,
    }
}

// The power of two with this exponent.
fn power_of_two(log: u8) -> u32
    requires { log ≤ 12 }
    ensures value { result ≡ 2 ^ log }
    ensures bound { result ≤ root_side }
{
    1u32 << log
}

// The side with this logarithm.
fn side_of(log: u8) -> i32
    requires { log ≤ 12 }
    ensures value { result ≡ pos (2 ^ log) }
    ensures small { Small root_side result }
{
    power_of_two(log) as i32
}

// The half of a box with the smaller coordinates.
fn left_half(c: &Cell, k: Axis) -> Cell
    requires { 0 < c.now.log k }
    ensures { result ≡ boxes.left_half c.now k }
{
    let i = axis_index(k);
    let mut log = c.log;
    log[i] -= 1;
    Cell {
        lo: c.lo,
        log,
        path: 2 * c.path,
    }
}

// The half of a box with the greater coordinates.
fn right_half(c: &Cell, k: Axis) -> Cell
    requires { 0 < c.now.log k }
    ensures { result ≡ boxes.right_half c.now k }
{
    let i = axis_index(k);
    let half = c.log[i] - 1;
    let at = c.lo[i] + side_of(half);
    let mut log = c.log;
    log[i] = half;
    let mut lo = c.lo;
    lo[i] = at;
    Cell {
        lo,
        log,
        path: 2 * c.path + 1,
    }
}

/// The left and the right half of a box along an axis: the one with the smaller coordinates first.
/// The box's side along that axis is above 1.
pub fn halves(c: &Cell, k: Axis) -> (Cell, Cell)
    requires { 0 < c.now.log k }
    ensures { (result.0 ≡ boxes.left_half c.now k) × (result.1 ≡ boxes.right_half c.now k) }
{
    (left_half(c, k), right_half(c, k))
}
