// Booleans over arrays.
use crate::boxes::{HIGH_VERTICES, LOW_VERTICES, TRIANGLES};
use ember_arrays::{ArrayOutcome, ArrayRequest, ArraySolid, ArraySource, SEVERAL, TURNED, boolean};
use ember_words::Text;
use mesh_arrays::{ArrayMesh, double_at};
use mesh_words::WantedStep;
use std::alloc::Global;
use std::test::Fail;

// The mesh with these vertices and triangles.
fn mesh<'a>(vertices: &'a [[u64; 3]], triangles: &'a [[u32; 3]]) -> ArrayMesh<'a> {
    ArrayMesh {
        vertices,
        triangles,
    }
}

// Both boxes.
fn boxes<'a>() -> [ArrayMesh<'a>; 2] {
    [
        mesh(&LOW_VERTICES, &TRIANGLES),
        mesh(&HIGH_VERTICES, &TRIANGLES),
    ]
}

// What a Boolean of these meshes gives, on a nice grid.
fn nice(alloc: Global, meshes: &[ArrayMesh], expression: &[u8]) -> ArrayOutcome {
    let request = ArrayRequest {
        meshes,
        expression,
        digits: None,
        wants_sources: false,
    };
    boolean(alloc, &request, WantedStep::Nice)
}

// A corner of the box that both boxes fill: its coordinates are 1 or 2.
fn is_within_both(vertex: &[f64; 3]) -> bool {
    let [x, y, z] = *vertex;
    (x == 1.0 || x == 2.0) && (y == 1.0 || y == 2.0) && (z == 1.0 || z == 2.0)
}

// Whether the solid is that box, without sources.
fn is_common_box(solid: &ArraySolid) -> bool {
    for vertex in &solid.vertices {
        if !is_within_both(vertex) {
            return false;
        }
    }
    solid.sources.is_none()
        && solid.vertices.len() == 8
        && solid.triangles.len() == 12
        && solid.file.written.is_manifold
}

// Whether a call gives that box, and a line that begins like this.
fn gives_common_box(given: &ArrayOutcome, start: &str) -> bool {
    match &given.solid {
        Some(solid) => {
            given.status == 0 && given.line.starts_with(start.as_bytes()) && is_common_box(solid)
        }
        None => false,
    }
}

#[test]
fn what_both_boxes_fill(rt: HostRuntime) {
    let given = nice(rt.alloc(), &boxes(), b"m1&m2");
    assert!(rt; gives_common_box(&given, "ember-mesh: step "));
}

// Whether this is a triangle of the first box, or one of the second that faces the other way.
fn is_of_difference(source: &ArraySource) -> bool {
    let wanted = if source.mesh == 2 { TURNED } else { 0 };
    (source.mesh == 1 || source.mesh == 2)
        && source.triangle < 12
        && source.flags % SEVERAL == wanted
}

// Whether each triangle has a source of that kind, and one is of the second box.
fn has_sources_of_difference(solid: &ArraySolid) -> bool {
    let Some(sources) = &solid.sources else {
        return false;
    };
    let mut is_of_second = false;
    for source in sources {
        if !is_of_difference(source) {
            return false;
        }
        is_of_second = is_of_second || source.mesh == 2;
    }
    is_of_second && sources.len() == solid.triangles.len()
}

fn gives_difference(given: &ArrayOutcome) -> bool {
    match &given.solid {
        Some(solid) => has_sources_of_difference(solid),
        None => false,
    }
}

#[test]
fn where_triangles_come_from(rt: HostRuntime) {
    let request = ArrayRequest {
        meshes: &boxes(),
        expression: b"m1&!m2",
        digits: None,
        wants_sources: true,
    };
    let given = boolean(rt.alloc(), &request, WantedStep::Nice);
    assert!(rt; gives_difference(&given));
}

fn gives_nothing(given: &ArrayOutcome) -> bool {
    match &given.solid {
        Some(solid) => {
            given.status == 0 && solid.vertices.is_empty() && solid.triangles.is_empty()
        }
        None => false,
    }
}

#[test]
fn nothing_is_a_solid_without_triangles(rt: HostRuntime) {
    let given = nice(rt.alloc(), &boxes(), b"m1&!m1");
    assert!(rt; gives_nothing(&given));
}

// Whether a call has this status and tells it by this line, and gives no solid.
fn is_refused(given: &ArrayOutcome, status: u32, line: &str) -> bool {
    given.status == status && given.line.as_slice() == line.as_bytes() && given.solid.is_none()
}

// Whether a call has this status, and its line begins like this.
fn is_told(given: &ArrayOutcome, status: u32, start: &str) -> bool {
    given.status == status && given.line.starts_with(start.as_bytes())
}

// The same because of this mesh.
fn is_of_mesh(given: &ArrayOutcome, status: u32, mesh: u32, start: &str) -> bool {
    given.mesh == mesh && is_told(given, status, start)
}

// The same because of this place in the mesh.
fn is_at(given: &ArrayOutcome, status: u32, mesh: u32, place: u32, start: &str) -> bool {
    given.place == place && is_of_mesh(given, status, mesh, start)
}

#[test]
fn a_coordinate_that_is_not_finite(rt: HostRuntime) {
    let mut vertices = HIGH_VERTICES;
    vertices[3][1] = 0x7ff8_0000_0000_0000;
    let meshes = [mesh(&LOW_VERTICES, &TRIANGLES), mesh(&vertices, &TRIANGLES)];
    let given = nice(rt.alloc(), &meshes, b"m1&m2");
    assert!(rt; is_at(&given, 5, 2, 4, "ember-mesh: mesh 2: vertex 4: "));
}

#[test]
fn a_corner_that_is_no_vertex(rt: HostRuntime) {
    let mut triangles = TRIANGLES;
    triangles[11][2] = 8;
    let meshes = [
        mesh(&LOW_VERTICES, &triangles),
        mesh(&HIGH_VERTICES, &TRIANGLES),
    ];
    let given = nice(rt.alloc(), &meshes, b"m1&m2");
    assert!(rt; is_at(&given, 5, 1, 12, "ember-mesh: mesh 1: face 12: "));
}

#[test]
fn a_coordinate_that_is_too_large(rt: HostRuntime) {
    // 10^15, and the double before it.
    let mut vertices = HIGH_VERTICES;
    vertices[0][0] = 0x430c_6bf5_2634_0000;
    let meshes = [mesh(&LOW_VERTICES, &TRIANGLES), mesh(&vertices, &TRIANGLES)];
    let given = nice(rt.alloc(), &meshes, b"m1&m2");
    assert!(rt; is_at(&given, 5, 2, 1, ""));
}

#[test]
fn a_mesh_that_is_not_closed(rt: HostRuntime) {
    let mut meshes = boxes();
    meshes[1].triangles = &TRIANGLES[..11];
    let given = nice(rt.alloc(), &meshes, b"m1&m2");
    let start = "ember-mesh: mesh 2: not closed: 3 loose edges";
    assert!(rt; is_of_mesh(&given, 6, 2, start));
}

// Expressions that are refused, with their status and their line.
static REFUSED_EXPRESSIONS: [(&[u8], u32, &str); 2] = [
    (b"m1&m3", 7, "ember-mesh: expression: no mesh 3\n"),
    (
        b"!m1",
        8,
        "ember-mesh: expression holds outside all meshes\n",
    ),
];

#[test]
fn expressions_that_are_refused(rt: HostRuntime) {
    for &(text, status, line) in &REFUSED_EXPRESSIONS {
        assert!(rt; is_refused(&nice(rt.alloc(), &boxes(), text), status, line));
    }
    let line = "ember-mesh: no files; see ember-mesh help\n";
    assert!(rt; is_refused(&nice(rt.alloc(), &[], b"m1"), 2, line));
}

// What a Boolean of the first mesh gives with so many digits, on this grid.
fn first_with(alloc: Global, digits: u32, step: WantedStep) -> ArrayOutcome {
    let request = ArrayRequest {
        meshes: &boxes(),
        expression: b"m1",
        digits: Some(digits),
        wants_sources: false,
    };
    boolean(alloc, &request, step)
}

#[test]
fn digits_that_are_refused(rt: HostRuntime) {
    let given = first_with(rt.alloc(), 18, WantedStep::Finest);
    let line = "ember-mesh: --digits: not a number from 0 to 17; see ember-mesh help\n";
    assert!(rt; is_refused(&given, 2, line));
}

#[test]
fn a_step_that_is_too_small(rt: HostRuntime) -> Result<(), Fail> {
    let step = Text::of(String::from_str(rt.alloc(), "0.0001")?);
    let given = first_with(rt.alloc(), 3, WantedStep::Decimal(step));
    let start = "ember-mesh: --step 0.0001: the scene is 3 long";
    assert!(rt; is_told(&given, 10, start));
    Ok(())
}

#[test]
fn decimals_as_doubles(rt: HostRuntime) -> Result<(), Fail> {
    let mut text = Vec::new(rt.alloc());
    assert!(rt; double_at(1, 1, &mut text)? == 0.1);
    assert!(rt; double_at(-15, 1, &mut text)? == -1.5);
    assert!(rt; double_at(0, 17, &mut text)? == 0.0);
    assert!(rt; double_at(123_456_789_012_345_678_901, 17, &mut text)? == 1234.567_890_123_456_8);
    Ok(())
}
