// STL files that are read, and their first faults.
use mesh_number::{Number, floor_times};
use mesh_read::{Facet, Span, StlFault, Surface, Vertex, is_ascii_stl, is_binary_stl, read_stl};
use std::alloc::{AllocError, Global};
use std::process::Abort;
use std::test::Fail;

// The bits of some binary32: 1, 1/2, -2, one just above 10^15, infinity and NaN.
const ONE: u32 = 0x3F80_0000;

const HALF: u32 = 0x3F00_0000;

const MINUS_TWO: u32 = 0xC000_0000;

const FAR: u32 = 0x5863_5FAA;

const INFINITY: u32 = 0x7F80_0000;

const NAN: u32 = 0xFFC0_0000;

// Each file here is short enough.
fn read(alloc: Global, bytes: &[u8]) -> Result<Surface<'_>, StlFault> {
    if bytes.len() > 268_435_456 {
        return Err(StlFault::OutOfMemory);
    }
    read_stl(alloc, bytes)
}

// The number of triangles, or the fault.
fn count(alloc: Global, bytes: &[u8]) -> Result<usize, StlFault> {
    match read(alloc, bytes) {
        Ok(surface) => Ok(surface.facets.len()),
        Err(fault) => Err(fault),
    }
}

static ASCII_FILES_THAT_ARE_READ: [(&[u8], usize); 5] = [
    (
        b"solid s\nfacet normal 0 0 1\nouter loop\nvertex 0 0 0\nvertex 1 0 0\nvertex 0 1 0\nendloop\nendfacet\nendsolid s\n",
        1,
    ),
    (
        b" SOLID\r\nFACET\r\n\r\nVERTEX 0 0 0\r\n VERTEX +1. 0 0\r\n\tVertex .0 1e0 0 7 x\r\nEndFacet\r\n",
        1,
    ),
    (
        b"solid\nfacet\nvertex 0 0 0\nvertex 1 0 0\nvertex 0 1 0\nendfacet\nendsolid\nsolid\nfacet\nvertex 0 0 0\nvertex 1 0 0\nvertex 0 1 0\nendfacet",
        2,
    ),
    (
        b"solid\nfacet\nvertex 9 9 9\nfacet\nvertex 0 0 0\nvertex 1 0 0\nvertex 0 1 0\nendfacet",
        1,
    ),
    (
        b"solid\nfacet\nvertex 0 0 0\nvertex 0 999999999999999.9 0\nvertex 0 1 0\nendfacet",
        1,
    ),
];

#[test]
fn ascii_files_that_are_read(rt: HostRuntime) {
    for &(bytes, want) in &ASCII_FILES_THAT_ARE_READ {
        assert!(rt; count(rt.alloc(), bytes) == Ok(want));
    }
}

static ASCII_FILES_THAT_ARE_REFUSED: [(&[u8], StlFault); 13] = [
    (b"solid\nvertex 0 0\nfacet", StlFault::VertexOutside(2)),
    (b"solid\nfacet\nvertex x 0\n", StlFault::FewCoordinates(3)),
    (
        b"solid\nfacet\nvertex 0 nan 0x1\n",
        StlFault::NotANumber(3, Span { start: 21, end: 24 }),
    ),
    (
        b"solid\nfacet\nendfacet\nvertex",
        StlFault::NotThreeVertices(3),
    ),
    (b"solid\nendfacet", StlFault::NotThreeVertices(2)),
    (
        b"solid\nfacet\nvertex 0 0 0\nvertex 1 0 0\nvertex 0 1 0\nvertex 0 0 1\nendfacet",
        StlFault::NotThreeVertices(7),
    ),
    (b"solid\nfacet\nvertex 0 0 0", StlFault::EndsInFacet(2)),
    (
        b"solid\nfacet\n normal 0 0 1\nvertex",
        StlFault::UnknownWord(3, Span { start: 13, end: 19 }),
    ),
    (b"solid\nendsolid", StlFault::NoTriangles),
    (
        b"solid\nfacet\nvertex 0 0 0\nvertex 0 -1e15 0\nvertex 0 1 0\nendfacet",
        StlFault::LargeInLine(2),
    ),
    (b"", StlFault::CutOff(0)),
    (b"solids\nfacet", StlFault::CutOff(0)),
    (b"solid name", StlFault::CutOff(0)),
];

#[test]
fn ascii_files_that_are_refused(rt: HostRuntime) {
    for &(bytes, want) in &ASCII_FILES_THAT_ARE_REFUSED {
        assert!(rt; count(rt.alloc(), bytes) == Err(want));
    }
}

// A binary STL whose header begins so, with this count and these facets of nine coordinates each.
fn binary_file(
    alloc: Global,
    header: &[u8; 11],
    facets: u32,
    coordinates: &[[u32; 9]],
) -> Result<Vec<u8>, AllocError> {
    let mut bytes = Vec::new(alloc);
    bytes.extend_from_slice(header)?;
    bytes.extend_from_slice(&[0; 69])?;
    bytes.extend_from_slice(&facets.to_le_bytes())?;
    for facet in coordinates {
        bytes.extend_from_slice(&[0; 12])?;
        for bits in facet {
            bytes.extend_from_slice(&bits.to_le_bytes())?;
        }
        bytes.extend_from_slice(b"##")?;
    }
    Ok(bytes)
}

const NEAR: [u32; 9] = [0, 0, 0, ONE, 0, 0, 0, ONE, 0];

const DISTANT: [u32; 9] = [0, 0, 0, ONE, 0, 0, 0, 0, FAR];

const INFINITE: [u32; 9] = [0, 0, 0, ONE, 0, INFINITY, 0, ONE, 0];

const NO_NUMBER: [u32; 9] = [NAN, 0, 0, ONE, 0, 0, 0, ONE, 0];

static BINARY_FILES: [(&[u8; 11], u32, &[[u32; 9]], Result<usize, StlFault>); 9] = [
    (b"exported by", 1, &[NEAR], Ok(1)),
    (b"solid facet", 3, &[NEAR, NEAR, NEAR], Ok(3)),
    (b"exported by", 0, &[], Err(StlFault::NoTriangles)),
    (
        b"exported by",
        2,
        &[NEAR, INFINITE],
        Err(StlFault::NotFinite(2)),
    ),
    (
        b"exported by",
        3,
        &[DISTANT, NO_NUMBER, INFINITE],
        Err(StlFault::NotFinite(2)),
    ),
    (
        b"exported by",
        3,
        &[NEAR, DISTANT, DISTANT],
        Err(StlFault::LargeInFacet(2)),
    ),
    (b"exported by", 2, &[NEAR], Err(StlFault::CutOff(2))),
    (b"exported by", 0, &[NEAR], Err(StlFault::CutOff(0))),
    (b"solid facet", 2, &[NEAR], Err(StlFault::NoTriangles)),
];

#[test]
fn binary_files(rt: HostRuntime) -> Result<(), Fail> {
    for &(header, facets, coordinates, want) in &BINARY_FILES {
        let bytes = binary_file(rt.alloc(), header, facets, coordinates)?;
        assert!(rt; count(rt.alloc(), &bytes) == want);
    }
    Ok(())
}

fn thousandths(number: &Number) -> Option<i128> {
    floor_times(number, 1000)
}

// The coordinates of a vertex in thousandths.
fn coordinates(vertex: &Vertex) -> [Option<i128>; 3] {
    [
        thousandths(&vertex.x),
        thousandths(&vertex.y),
        thousandths(&vertex.z),
    ]
}

// The file has these vertices in thousandths, three for each triangle, and triangles with these places.
fn check(
    rt: &impl Abort,
    alloc: Global,
    bytes: &[u8],
    want: &[[i128; 3]],
    places: &[u32],
) -> Result<(), Fail> {
    let Ok(surface) = read(alloc, bytes) else {
        return Err(Fail::from("refused"));
    };
    assert!(rt; surface.vertices.len() == want.len());
    for (vertex, [x, y, z]) in surface.vertices.iter().zip(want) {
        assert!(rt; coordinates(vertex) == [Some(*x), Some(*y), Some(*z)]);
    }
    assert!(rt; surface.facets.len() == places.len());
    let mut first = 0;
    for (facet, place) in surface.facets.iter().zip(places) {
        assert!(rt; first < 1000);
        let corners = [first, first + 1, first + 2];
        assert!(rt;
            *facet
                == (Facet {
                    corners,
                    place: *place
                })
        );
        first += 3;
    }
    Ok(())
}

#[test]
fn triangles_have_their_vertices_and_places(rt: HostRuntime) -> Result<(), Fail> {
    let ascii =
        b"solid\nfacet\nvertex 0 0 0.5\nvertex 1e1 0 0\nvertex 0 -2 0\nendfacet\nfacet\nvertex 1 2 3\nvertex 4 5 6\nvertex 7 8 9\nendfacet";
    let vertices = [
        [0, 0, 500],
        [10_000, 0, 0],
        [0, -2000, 0],
        [1000, 2000, 3000],
        [4000, 5000, 6000],
        [7000, 8000, 9000],
    ];
    check(&rt, rt.alloc(), ascii, &vertices, &[2, 7])?;
    let facets = [[ONE, 0, 0, 0, HALF, 0, 0, 0, MINUS_TWO]];
    let binary = binary_file(rt.alloc(), b"solid facet", 1, &facets)?;
    check(
        &rt,
        rt.alloc(),
        &binary,
        &[[1000, 0, 0], [0, 500, 0], [0, 0, -2000]],
        &[1],
    )
}

#[test]
fn forms_of_files(rt: HostRuntime) -> Result<(), Fail> {
    let binary = binary_file(rt.alloc(), b"solid facet", 1, &[[0; 9]])?;
    let mut longer = Vec::from_slice(rt.alloc(), &binary)?;
    longer.extend_from_slice(b"\n")?;
    let rows: [(&[u8], bool, bool); 5] = [
        (&binary, true, true),
        (&longer, false, true),
        (b"\n\tSolid x\nEndSolid", false, true),
        (b"solid", false, false),
        (b"solids facet", false, false),
    ];
    for (bytes, is_binary, is_ascii) in rows {
        assert!(rt; bytes.len() <= 268_435_456);
        assert!(rt; is_binary_stl(bytes) == is_binary);
        assert!(rt; is_ascii_stl(bytes) == is_ascii);
    }
    Ok(())
}
