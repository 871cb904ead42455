// Boxes and cylinders: their corners, and which way their triangles turn.
use mesh_number::{integer, read_decimal};
use mesh_place::{ShapeFault, StepsFault, TransformedSurface, box_between, cylinder};
use mesh_read::Vertex;
use std::test::Fail;

fn vertex_of(texts: [&[u8]; 3]) -> Vertex<'_> {
    let zero = integer(0);
    let [x, y, z] = texts;
    Vertex {
        x: read_decimal(x).unwrap_or(zero),
        y: read_decimal(y).unwrap_or(zero),
        z: read_decimal(z).unwrap_or(zero),
    }
}

// Whether these are the digits of the last corner.
fn ends_at(surface: &TransformedSurface, x: &[u8], y: &[u8], z: &[u8]) -> bool {
    match surface.points.last() {
        Some(point) => {
            point.x.digits.as_slice() == x
                && point.y.digits.as_slice() == y
                && point.z.digits.as_slice() == z
        }
        None => false,
    }
}

#[test]
fn boxes_have_their_corners(rt: HostRuntime) -> Result<(), Fail> {
    let low = vertex_of([b"0", b"0", b"0"]);
    let high = vertex_of([b"1", b"2.5", b"-3"]);
    let first = box_between(rt.alloc(), &low, &high)?;
    assert!(rt; first.points.len() == 8);
    assert!(rt; first.facets.len() == 12);
    assert!(rt; ends_at(&first, b"10", b"25", b"30"));
    assert!(rt; first.facets.first().map(|f| f.corners) == Some([0, 3, 2]));
    let upright = box_between(rt.alloc(), &low, &vertex_of([b"1", b"1", b"1"]))?;
    assert!(rt; upright.facets.first().map(|f| f.corners) == Some([0, 2, 3]));
    let flat = vertex_of([b"1", b"0e5", b"1"]);
    match box_between(rt.alloc(), &low, &flat) {
        Ok(_) => assert!(rt; false),
        Err(fault) => assert!(rt; fault == ShapeFault::Flat),
    }
    Ok(())
}

#[test]
fn cylinders_have_their_corners(rt: HostRuntime) -> Result<(), Fail> {
    let centre = vertex_of([b"0", b"0", b"1"]);
    let (radius, height) = (integer(2), integer(3));
    let square = cylinder(rt.alloc(), &centre, &radius, &height, 4)?;
    assert!(rt; square.points.len() == 8);
    assert!(rt; square.facets.len() == 12);
    assert!(rt;
        ends_at(
            &square,
            b"",
            b"200000000000000000000",
            b"400000000000000000000"
        )
    );
    for sides in [0, 2, 4097] {
        match cylinder(rt.alloc(), &centre, &radius, &height, sides) {
            Ok(_) => assert!(rt; false),
            Err(fault) => assert!(rt; fault == ShapeFault::Sides),
        }
    }
    match cylinder(rt.alloc(), &centre, &integer(0), &height, 4) {
        Ok(_) => assert!(rt; false),
        Err(fault) => assert!(rt; fault == ShapeFault::NoMap(StepsFault::Flat(0))),
    }
    Ok(())
}
