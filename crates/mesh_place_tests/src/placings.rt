// Images of vertices and triangles. Sines and cosines are those of tables.
use mesh_number::{integer, read_decimal};
use mesh_place::{ExactDecimal, TransformedSurface, map_of_steps, transform_surface};
use mesh_placing::read_steps;
use mesh_read::{Facet, Surface, Vertex};
use std::alloc::Global;
use std::process::Abort;
use std::test::Fail;

// A coordinate: whether there is a minus, its digits, and how many of them are after the point.
type Coordinate = (bool, &'static [u8], u16);

// Steps, the coordinates of a vertex, and those of its image.
type Placing = (
    &'static [u8],
    [&'static [u8]; 3],
    Coordinate,
    Coordinate,
    Coordinate,
);

static PLACINGS: [Placing; 9] = [
    (
        b"move=1,2.5,-3",
        [b"0.5", b"0", b"1e1"],
        (false, b"150", 2),
        (false, b"250", 2),
        (false, b"700", 2),
    ),
    (
        b"scale=2",
        [b"1.5", b"-2", b"0"],
        (false, b"30", 1),
        (true, b"40", 1),
        (false, b"", 1),
    ),
    (
        b"scale=1,-2,0.5",
        [b"1", b"1", b"1"],
        (false, b"10", 1),
        (true, b"20", 1),
        (false, b"5", 1),
    ),
    (
        b"mirror=y",
        [b"1", b"2", b"3"],
        (false, b"1", 0),
        (true, b"2", 0),
        (false, b"3", 0),
    ),
    (
        b"turn=z,90",
        [b"1", b"2", b"3"],
        (true, b"200000000000000000000", 20),
        (false, b"100000000000000000000", 20),
        (false, b"300000000000000000000", 20),
    ),
    (
        b"turn=z,30",
        [b"1", b"0", b"0"],
        (false, b"86602540378443864676", 20),
        (false, b"50000000000000000000", 20),
        (false, b"", 20),
    ),
    (
        b"turn=x,-22.5",
        [b"0", b"1", b"0"],
        (false, b"", 20),
        (false, b"92387953251128675613", 20),
        (true, b"38268343236508977173", 20),
    ),
    (
        b"turn=y,900;move=0,0,0.5",
        [b"1", b"0", b"2"],
        (true, b"1000000000000000000000", 21),
        (false, b"", 21),
        (true, b"1500000000000000000000", 21),
    ),
    (
        b"move=1,0,0;scale=3;mirror=x",
        [b"1", b"0", b"0"],
        (true, b"6", 0),
        (false, b"", 0),
        (false, b"", 0),
    ),
];

fn is_coordinate(decimal: &ExactDecimal, want: Coordinate) -> bool {
    decimal.minus == want.0 && decimal.digits.as_slice() == want.1 && decimal.places == want.2
}

// A surface of this vertex, and of one triangle over three others.
fn surface_of<'a>(alloc: Global, texts: [&'a [u8]; 3]) -> Result<Surface<'a>, Fail> {
    let zero = integer(0);
    let [x, y, z] = texts;
    let mut vertices = Vec::new(alloc);
    vertices.push(Vertex {
        x: read_decimal(x).unwrap_or(zero),
        y: read_decimal(y).unwrap_or(zero),
        z: read_decimal(z).unwrap_or(zero),
    })?;
    let mut facets = Vec::new(alloc);
    facets.push(Facet {
        corners: [1, 2, 3],
        place: 7,
    })?;
    Ok(Surface { vertices, facets })
}

fn placed(alloc: Global, steps: &[u8], texts: [&[u8]; 3]) -> Result<TransformedSurface, Fail> {
    let steps = read_steps(alloc, steps)?;
    let map = map_of_steps(alloc, &steps)?;
    let surface = surface_of(alloc, texts)?;
    Ok(transform_surface(alloc, &map, &surface)?)
}

#[test]
fn vertices_have_their_images(rt: HostRuntime) -> Result<(), Fail> {
    for &(steps, texts, x, y, z) in &PLACINGS {
        let all = placed(rt.alloc(), steps, texts)?;
        let point = all.points.first().expect(&rt, "a point");
        assert!(rt; is_coordinate(&point.x, x));
        assert!(rt; is_coordinate(&point.y, y));
        assert!(rt; is_coordinate(&point.z, z));
    }
    Ok(())
}

static MIRRORS: [(&[u8], [u32; 3]); 4] = [
    (b"turn=x,45", [1, 2, 3]),
    (b"mirror=z", [1, 3, 2]),
    (b"mirror=z;mirror=x", [1, 2, 3]),
    (b"scale=1,-1,1;move=1,1,1", [1, 3, 2]),
];

#[test]
fn odd_mirrors_turn_triangles_over(rt: HostRuntime) -> Result<(), Fail> {
    for &(steps, corners) in &MIRRORS {
        let all = placed(rt.alloc(), steps, [b"0", b"0", b"0"])?;
        let surface = all.surface(rt.alloc())?;
        let want = Facet { corners, place: 7 };
        assert!(rt; surface.facets.first().copied() == Some(want));
    }
    Ok(())
}
