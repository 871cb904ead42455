// Files of the cases.

/// The cube from 0 to 4 on each axis.
pub const CUBE: &[u8] = b"\
v 0 0 0\nv 4 0 0\nv 4 4 0\nv 0 4 0\nv 0 0 4\nv 4 0 4\nv 4 4 4\nv 0 4 4\nf 1 4 3 2\n\
f 5 6 7 8\nf 1 2 6 5\nf 2 3 7 6\nf 3 4 8 7\nf 4 1 5 8\n";

/// The cube from 2 to 6 on each axis.
pub const SHIFTED_CUBE: &[u8] = b"\
v 2 2 2\nv 6 2 2\nv 6 6 2\nv 2 6 2\nv 2 2 6\nv 6 2 6\nv 6 6 6\nv 2 6 6\nf 1 4 3 2\n\
f 5 6 7 8\nf 1 2 6 5\nf 2 3 7 6\nf 3 4 8 7\nf 4 1 5 8\n";

/// A tetrahedron with fractions, up to 3.125 along z.
pub const FRACTIONS: &[u8] = b"\
v 0 0 0\nv 1.5 0 0\nv 0 2.25 0\nv 0 0 3.125\nf 1 3 2\nf 1 2 4\nf 1 4 3\nf 2 3 4\n";

/// One triangle, as an ASCII STL.
pub const STL_TRIANGLE: &[u8] = b"\
solid\nfacet\nvertex 0 0 0.5\nvertex 1e1 0 0\nvertex 0 -2 0\nendfacet\nendsolid\n";
