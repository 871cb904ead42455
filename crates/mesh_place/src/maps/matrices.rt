// What an affine map is made of.
ghost use Rattle.std.specs.Prelude.{◌≤◌};

use crate::exact::integers::Integer;

// The numbers that give a coordinate of an image: the factors of x, y and z, and the offset.
#[derive(Drop)]
pub(crate) struct Row {
    pub x: Integer,
    pub y: Integer,
    pub z: Integer,
    pub offset: Integer,
}

/// An affine map, exactly: a move, a scale, a turn, a mirror, or several of these one after another.
///
/// Its numbers are decimals with so many places, at most 4,999.
#[derive(Drop)]
pub struct AffineMap {
    pub(crate) x: Row,
    pub(crate) y: Row,
    pub(crate) z: Row,
    pub(crate) places: usize,
    ghost few: { places ≤ 4999 },
}

// Three coordinates over one denominator.
#[derive(Clone, Copy)]
pub(crate) struct Column<'a> {
    pub x: &'a Integer,
    pub y: &'a Integer,
    pub z: &'a Integer,
    pub w: &'a Integer,
}

// The columns of a map: the images of the axes, and that of the origin.
#[derive(Clone, Copy)]
pub(crate) struct Columns<'a> {
    pub x: Column<'a>,
    pub y: Column<'a>,
    pub z: Column<'a>,
    pub origin: Column<'a>,
}
