// What C gets of a Boolean over arrays.
ghost use Rattle.std.specs.Prelude.{◌≡◌};
ghost use Rattle.ember_c.specs.Solids.{HasNoSolid, HasNumbers, IsSolidOf, place_from_zero, two_words};

use crate::blocks::{Block, block_of, no_block};
use ember_arrays::{ArrayOutcome, ArraySolid, ArraySource};
use mesh_boolean::SolidFile;
use std::ptr::null_mut;

/// The struct `ember_solid` of the header.
#[repr(C)]
#[derive(Drop)]
pub struct Solid {
    pub status: u32,
    pub mesh: u32,
    pub place: u64,
    pub line: Block,
    pub vertices: *mut [f64; 3],
    pub vertex_count: usize,
    pub triangles: *mut [u32; 3],
    pub triangle_count: usize,
    pub sources: *mut ArraySource,
    pub numbers: Numbers,
}

/// The numbers of a solid: the last fields of `ember_solid`.
#[repr(C)]
#[derive(Clone, Copy)]
pub struct Numbers {
    pub step: [u64; 2],
    pub offset: [[u64; 2]; 3],
    pub faces: u64,
    pub planes: u64,
    pub vanished: u64,
    pub shared: u64,
    pub flat: u64,
    pub turned: u64,
    pub is_manifold: u64,
}

// The array of vertices, which is the caller's from here on; null if it is empty.
fn vertices_at(mut vertices: Vec<[f64; 3]>) -> *mut [f64; 3] {
    if vertices.is_empty() {
        return null_mut();
    }
    let at = vertices.as_mut_ptr();
    let _ = vertices.leak();
    at
}

// The array of triangles, likewise.
fn triangles_at(mut triangles: Vec<[u32; 3]>) -> *mut [u32; 3] {
    if triangles.is_empty() {
        return null_mut();
    }
    let at = triangles.as_mut_ptr();
    let _ = triangles.leak();
    at
}

// The array of sources, likewise.
fn source_array(mut sources: Vec<ArraySource>) -> *mut ArraySource {
    if sources.is_empty() {
        return null_mut();
    }
    let at = sources.as_mut_ptr();
    let _ = sources.leak();
    at
}

// The same of sources that may not be there; null if they aren't.
fn sources_at(sources: Option<Vec<ArraySource>>) -> *mut ArraySource {
    match sources {
        Some(sources) => source_array(sources),
        None => null_mut(),
    }
}

// The two words of a number, the low one first.
fn two_words(number: i128) -> [u64; 2]
    ensures { result ≡ two_words number }
{
    let bits = number.cast_unsigned();
    [(bits % (1 << 64)) as u64, (bits >> 64) as u64]
}

// The numbers of a solid without triangles.
fn no_numbers() -> Numbers {
    Numbers {
        step: [0; 2],
        offset: [[0; 2]; 3],
        faces: 0,
        planes: 0,
        vanished: 0,
        shared: 0,
        flat: 0,
        turned: 0,
        is_manifold: 0,
    }
}

// The numbers of a solid.
fn numbers_of(file: &SolidFile) -> Numbers
    ensures { HasNumbers file.now result }
{
    let mesh = &file.written;
    Numbers {
        step: [file.grid.step.numerator, file.grid.step.denominator],
        offset: [
            two_words(file.grid.offset.x),
            two_words(file.grid.offset.y),
            two_words(file.grid.offset.z),
        ],
        faces: mesh.faces,
        planes: mesh.planes,
        vanished: mesh.vanished,
        shared: mesh.shared,
        flat: mesh.effect.facings.without_area,
        turned: mesh.effect.facings.turned_over,
        is_manifold: u64::from(mesh.is_manifold),
    }
}

// The number of a vertex or a triangle from 0, or the greatest number of 64 bits if there is none.
fn place_from_zero(place: u32) -> u64
    ensures { result ≡ place_from_zero place }
{
    match place {
        0 => u64::MAX,
        place => u64::from(place) - 1,
    }
}

/// The solid with the arrays of an outcome. It asks for no memory.
pub fn solid_of(outcome: ArrayOutcome) -> Solid
    ensures { IsSolidOf outcome result }
{
    let ArrayOutcome {
        status,
        mesh,
        place,
        line,
        solid,
    } = outcome;
    let place = place_from_zero(place);
    let line = block_of(line);
    match solid {
        Some(
            ArraySolid {
                vertices,
                triangles,
                sources,
                file,
            },
        ) => Solid {
            status,
            mesh,
            place,
            line,
            vertex_count: vertices.len(),
            vertices: vertices_at(vertices),
            triangle_count: triangles.len(),
            triangles: triangles_at(triangles),
            sources: sources_at(sources),
            numbers: numbers_of(&file),
        },
        None => Solid {
            status,
            mesh,
            place,
            line,
            vertices: null_mut(),
            vertex_count: 0,
            triangles: null_mut(),
            triangle_count: 0,
            sources: null_mut(),
            numbers: no_numbers(),
        },
    }
}

/// The solid of a call that ends with this status before anything is made.
pub fn nothing_made(status: u32) -> Solid
    ensures { HasNoSolid status result }
{
    Solid {
        status,
        mesh: 0,
        place: u64::MAX,
        line: no_block(),
        vertices: null_mut(),
        vertex_count: 0,
        triangles: null_mut(),
        triangle_count: 0,
        sources: null_mut(),
        numbers: no_numbers(),
    }
}
