// Boxes.
ghost use Rattle.std.specs.Prelude.{◌≡◌, ◌≤◌, ◌-ℤ◌, true, None, IfOk, IfErr};
ghost use Rattle.mesh_read.specs.Surface.Surfaces.{point_of, content_of};
ghost use Rattle.mesh_place.specs.Integers.{integer_of};
ghost use Rattle.mesh_place.specs.AffineMaps.{row_along, row_of, affine_of};
ghost use Rattle.mesh_place.specs.Points.{IsExactPoint, has_short_numbers};
ghost use Rattle.mesh_place.specs.Images.{transformed_content, long_vertex_from};
ghost use Rattle.mesh_place.specs.Shapes.{unit_box, IsBoxMap, IsBox, IsBoxFault};

use crate::exact::integers::Integer;
use crate::exact::points::{ExactPoint, has_short_numbers};
use crate::exact::sums::difference;
use crate::maps::affine::row_along;
use crate::maps::axes::Axis;
use crate::maps::matrices::{AffineMap, Row};
use crate::shapes::fault::ShapeFault;
use crate::surface::image::transform_surface;
use crate::surface::transformed::{TransformFault, TransformedSurface};
use mesh_number::{Binary, Number};
use mesh_read::{Facet, Surface, Vertex};
use std::alloc::{AllocError, Global};

const NOUGHT: Binary = Binary {
    minus: false,
    significand: 0,
    power: 0,
    scale: 0,
};

const ONE: Binary = Binary {
    minus: false,
    significand: 1,
    power: 0,
    scale: 0,
};

// The triangles of a box, counter-clockwise seen from outside.
const FACETS: [Facet; 12] = [
    Facet {
        corners: [0, 2, 3],
        place: 1,
    },
    Facet {
        corners: [0, 3, 1],
        place: 2,
    },
    Facet {
        corners: [4, 5, 7],
        place: 3,
    },
    Facet {
        corners: [4, 7, 6],
        place: 4,
    },
    Facet {
        corners: [0, 1, 5],
        place: 5,
    },
    Facet {
        corners: [0, 5, 4],
        place: 6,
    },
    Facet {
        corners: [2, 7, 3],
        place: 7,
    },
    Facet {
        corners: [2, 6, 7],
        place: 8,
    },
    Facet {
        corners: [0, 4, 6],
        place: 9,
    },
    Facet {
        corners: [0, 6, 2],
        place: 10,
    },
    Facet {
        corners: [1, 3, 7],
        place: 11,
    },
    Facet {
        corners: [1, 7, 5],
        place: 12,
    },
];

// The box from (0, 0, 0) to (1, 1, 1).
fn unit_box(alloc: Global) -> Result<Surface<'static>, AllocError>
    ensures content { IfOk result (λ s. content_of s ≡ unit_box) }
    ensures short { IfOk result (λ s. long_vertex_from 0 s.vertices.items ≡ None) }
{
    let a = Number::Binary(NOUGHT);
    let b = Number::Binary(ONE);
    let vertices = vec![in alloc;
        Vertex { x: a, y: a, z: a },
        Vertex { x: b, y: a, z: a },
        Vertex { x: a, y: b, z: a },
        Vertex { x: b, y: b, z: a },
        Vertex { x: a, y: a, z: b },
        Vertex { x: b, y: a, z: b },
        Vertex { x: a, y: b, z: b },
        Vertex { x: b, y: b, z: b },
    ]?;
    let facets = Vec::from_slice(alloc, &FACETS)?;
    Ok(Surface { vertices, facets })
}

// Two points over one power of ten.
#[derive(Drop)]
struct BothCorners {
    from: ExactPoint,
    to: ExactPoint,
    places: usize,
    ghost few: { places ≤ 4999 },
}

// The points of two vertices.
fn both_corners(alloc: Global, from: &Vertex, to: &Vertex) -> Result<BothCorners, AllocError>
    requires from { has_short_numbers from.now ≡ true }
    requires to { has_short_numbers to.now ≡ true }
    ensures from { IfOk result (λ both. IsExactPoint (point_of from.now) both.places both.from) }
    ensures to { IfOk result (λ both. IsExactPoint (point_of to.now) both.places both.to) }
{
    let mut start = ExactPoint::origin(alloc)?;
    let mut end = ExactPoint::origin(alloc)?;
    let start_places = start.read(from)?;
    let end_places = end.read(to)?;
    let places = start_places.max(end_places);
    start.shift(places - start_places)?;
    end.shift(places - end_places)?;
    Ok(BothCorners {
        from: start,
        to: end,
        places,
    })
}

// The row that takes 0 to one number and 1 to another.
fn box_row(alloc: Global, axis: Axis, from: Integer, to: &Integer) -> Result<Row, AllocError>
    ensures { IfOk result (λ r. row_of r ≡ row_along axis (integer_of to.now -ℤ integer_of from) (integer_of from)) }
{
    let length = difference(alloc, to, &from)?;
    let row = row_along(alloc, axis, length, from)?;
    Ok(row)
}

// The map that takes the unit box to the one between two corners.
fn box_map(alloc: Global, from: &Vertex, to: &Vertex) -> Result<AffineMap, AllocError>
    requires from { has_short_numbers from.now ≡ true }
    requires to { has_short_numbers to.now ≡ true }
    ensures { IfOk result (λ a. IsBoxMap (point_of from.now) (point_of to.now) (affine_of a)) }
{
    let BothCorners {
        from: start,
        to: end,
        places,
    } = both_corners(alloc, from, to)?;
    let ExactPoint { x, y, z, w: _ } = start;
    Ok(AffineMap {
        x: box_row(alloc, Axis::X, x, &end.x)?,
        y: box_row(alloc, Axis::Y, y, &end.y)?,
        z: box_row(alloc, Axis::Z, z, &end.z)?,
        places,
    })
}

/// The box between two opposite corners, with 8 vertices and 12 triangles, which are numbered from 1.
/// Outside is outside, whichever corners these are.
pub fn box_between(
    alloc: Global,
    from: &Vertex,
    to: &Vertex,
) -> Result<TransformedSurface, ShapeFault>
    ensures ok { IfOk result (λ s. IsBox (point_of from.now) (point_of to.now) (transformed_content s)) }
    ensures fault { IfErr result (λ e. IsBoxFault from.now to.now e) }
{
    if !has_short_numbers(from) || !has_short_numbers(to) {
        return Err(ShapeFault::TooLong);
    }
    let map = box_map(alloc, from, to)?;
    let flat = map.is_flattening(alloc)?;
    if flat {
        return Err(ShapeFault::Flat);
    }
    let unit = unit_box(alloc)?;
    match transform_surface(alloc, &map, &unit) {
        Ok(placed) => Ok(placed),
        Err(TransformFault::OutOfMemory) => Err(ShapeFault::OutOfMemory),
        Err(TransformFault::TooLong(_)) => unreachable!(),
    }
}
