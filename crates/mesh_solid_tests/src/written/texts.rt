// Vertices and triangles as text.
use mesh_write::{
    DecimalPoint, DecimalTriangle, IndexedMesh, IndexedTriangle, TextFormat, mesh_text,
};
use std::alloc::{AllocError, Global};
use std::test::Fail;

/// A point in units of the last place.
pub fn point(x: i128, y: i128, z: i128) -> DecimalPoint {
    DecimalPoint { x, y, z }
}

// Two triangles with an edge in common.
fn two_triangles(alloc: Global) -> Result<IndexedMesh, AllocError> {
    let (a, b) = (point(0, 0, 0), point(15, 0, 0));
    let (c, d) = (point(15, 15, 0), point(0, 1000, -1));
    let mut mesh = IndexedMesh::new(alloc);
    mesh.push(&DecimalTriangle { a, b, c })?;
    mesh.push(&DecimalTriangle { a, b: c, c: d })?;
    Ok(mesh)
}

#[test]
fn a_common_corner_is_one_vertex(rt: HostRuntime) -> Result<(), Fail> {
    let mesh = two_triangles(rt.alloc())?;
    let vertices = [
        point(0, 0, 0),
        point(15, 0, 0),
        point(15, 15, 0),
        point(0, 1000, -1),
    ];
    let triangles = [
        IndexedTriangle { a: 0, b: 1, c: 2 },
        IndexedTriangle { a: 0, b: 2, c: 3 },
    ];
    assert!(rt; mesh.vertices() == vertices.as_slice());
    assert!(rt; mesh.triangles() == triangles.as_slice());
    Ok(())
}

const OBJ: &[u8] = b"# ember-mesh: rounded from an exact result\n\
    v 0 0 0\nv 1.5 0 0\nv 1.5 1.5 0\nv 0 100 -0.1\nf 1 2 3\nf 1 3 4\n";

const PLY: &[u8] = b"ply\nformat ascii 1.0\ncomment ember-mesh: rounded from an exact result\n\
    element vertex 4\nproperty double x\nproperty double y\nproperty double z\n\
    element face 2\nproperty list uchar int vertex_indices\nend_header\n\
    0 0 0\n1.5 0 0\n1.5 1.5 0\n0 100 -0.1\n3 0 1 2\n3 0 2 3\n";

const OFF: &[u8] = b"OFF\n4 2 0\n0 0 0\n1.5 0 0\n1.5 1.5 0\n0 100 -0.1\n3 0 1 2\n3 0 2 3\n";

static TWO_TRIANGLES_IN_EACH_FORMAT: [(TextFormat, &[u8]); 3] = [
    (TextFormat::Obj, OBJ),
    (TextFormat::Ply, PLY),
    (TextFormat::Off, OFF),
];

#[test]
fn two_triangles_in_each_format(rt: HostRuntime) -> Result<(), Fail> {
    let alloc = rt.alloc();
    let mesh = two_triangles(alloc)?;
    for &(format, want) in &TWO_TRIANGLES_IN_EACH_FORMAT {
        let text = mesh_text(alloc, format, mesh.vertices(), mesh.triangles(), 1)?;
        assert!(rt; text.as_slice() == want);
    }
    Ok(())
}

#[test]
fn decimals_of_points(rt: HostRuntime) -> Result<(), Fail> {
    // 10^38, the largest size of a coordinate.
    let most = 100_000_000_000_000_000_000_000_000_000_000_000_000i128;
    let rows: [(DecimalPoint, u32, &[u8]); 4] = [
        (point(0, -7, 70), 0, b"OFF\n1 0 0\n0 -7 70\n"),
        (point(-1, 10, -250), 2, b"OFF\n1 0 0\n-0.01 0.1 -2.5\n"),
        (
            point(-most, most, 1),
            17,
            b"OFF\n1 0 0\n-1000000000000000000000 1000000000000000000000 0.00000000000000001\n",
        ),
        (
            point(most - 1, 0, -123),
            1,
            b"OFF\n1 0 0\n9999999999999999999999999999999999999.9 0 -12.3\n",
        ),
    ];
    for (vertex, places, want) in rows {
        assert!(rt; places <= 17);
        let text = mesh_text(rt.alloc(), TextFormat::Off, &[vertex], &[], places)?;
        assert!(rt; text.as_slice() == want);
    }
    Ok(())
}
