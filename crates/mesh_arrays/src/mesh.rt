// A mesh that a caller lends.
ghost use Rattle.std.specs.Prelude.{◌↔◌, IsTrue};
ghost use Rattle.mesh_arrays.specs.Arrays.{IsShort};

// As many bytes as a mesh file has at most.
const MOST_BYTES: usize = 268_435_456;

// The bytes of a vertex and of a triangle.
const VERTEX_BYTES: usize = 24;

const TRIANGLE_BYTES: usize = 12;

/// A mesh in arrays. A coordinate is the bits of a double (an IEEE 754 float of 64 bits), which may be
/// infinite or NaN. (As in C, a slice is its address and its length here, so that an array of C's needs no
/// copy.)
#[repr(C)]
#[derive(Clone, Copy)]
pub struct ArrayMesh<'a> {
    /// The coordinates x, y and z of each vertex.
    pub vertices: &'a [[u64; 3]],
    /// The indices of the corners of each triangle among the vertices, from 0, counter-clockwise seen from
    /// outside.
    pub triangles: &'a [[u32; 3]],
}

impl<'a> ArrayMesh<'a> {
    /// Whether both arrays together have at most 2^28 bytes, as a mesh file may have.
    pub fn is_short(&self) -> bool
        ensures { IsTrue result ↔ IsShort self.now }
    {
        let (vertices, triangles) = (self.vertices.len(), self.triangles.len());
        vertices <= MOST_BYTES / VERTEX_BYTES
            && triangles <= (MOST_BYTES - VERTEX_BYTES * vertices) / TRIANGLE_BYTES
    }
}
