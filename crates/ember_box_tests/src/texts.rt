// Files of the cases.

/// The tetrahedron with the corners 0 and the unit points, outward.
pub const TETRA: &[u8] = b"\
v 0 0 0\nv 1 0 0\nv 0 1 0\nv 0 0 1\nf 1 3 2\nf 1 2 4\nf 1 4 3\nf 2 3 4\n";

/// The same with its last triangle turned.
pub const OPEN_TETRA: &[u8] = b"\
v 0 0 0\nv 1 0 0\nv 0 1 0\nv 0 0 1\nf 1 3 2\nf 1 2 4\nf 1 4 3\nf 2 4 3\n";

/// Two wedges, one beside the other.
pub const WEDGE_A: &[u8] = b"\
v 0 0 0\nv 2 0 0\nv 0 2 0\nv 0 0 2\nf 1 3 2\nf 1 2 4\nf 1 4 3\nf 2 3 4\n";

pub const WEDGE_B: &[u8] = b"\
v 1 0 0\nv 3 0 0\nv 1 2 0\nv 1 0 2\nf 1 3 2\nf 1 2 4\nf 1 4 3\nf 2 3 4\n";

/// A tetrahedron round the point 0.
pub const STAR: &[u8] = b"\
v 1 1 1\nv 1 -1 -1\nv -1 1 -1\nv -1 -1 1\nf 1 2 3\nf 1 3 4\nf 1 4 2\nf 2 4 3\n";

/// The cubes from 0 to 4 and from 2 to 6 on each axis. The triangles 0 and 1 are the bottom, 2
/// and 3 the top.
pub const C: &[u8] = b"\
v 0 0 0\nv 4 0 0\nv 4 4 0\nv 0 4 0\nv 0 0 4\nv 4 0 4\nv 4 4 4\nv 0 4 4\nf 1 4 3 2\n\
f 5 6 7 8\nf 1 2 6 5\nf 2 3 7 6\nf 3 4 8 7\nf 4 1 5 8\n";

pub const D: &[u8] = b"\
v 2 2 2\nv 6 2 2\nv 6 6 2\nv 2 6 2\nv 2 2 6\nv 6 2 6\nv 6 6 6\nv 2 6 6\nf 1 4 3 2\n\
f 5 6 7 8\nf 1 2 6 5\nf 2 3 7 6\nf 3 4 8 7\nf 4 1 5 8\n";

/// Two triangles, each with its reverse: the first on the upper side of y = 0 and of z = 0, the
/// second on the lower side.
pub const APART: &[u8] = b"\
v 9 9 9\nv -8 9 9\nv 9 8 9\nv 9 -9 -9\nv -8 -9 -9\nv 9 -8 -9\n\
f 1 2 3\nf 1 3 2\nf 4 5 6\nf 4 6 5\n";

/// The same, but a corner of the second has y = 0.
pub const TOUCHING: &[u8] = b"\
v 9 9 9\nv -8 9 9\nv 9 8 9\nv 9 0 -9\nv -8 -9 -9\nv 9 -8 -9\n\
f 1 2 3\nf 1 3 2\nf 4 5 6\nf 4 6 5\n";

/// One triangle, from end to end of space.
pub const LONG: &[u8] = b"v -2047 2047 -2047\nv 2047 -2047 2047\nv 0 0 0\nf 1 2 3\n";

/// The face file of the tetrahedron.
pub const TETRA_TEXT: &[u8] = b"\
ember 1\n\
f 0 0 -1 0 3\ne -1 0 0 0 0 0 0 1\ne 1 1 0 1 0 1 0 1\ne 0 -1 0 0 1 0 0 1\n\
f 0 -1 0 0 3\ne 0 0 -1 0 0 0 0 1\ne 1 0 1 1 1 0 0 1\ne -1 0 0 0 0 0 1 1\n\
f -1 0 0 0 3\ne 0 -1 0 0 0 0 0 1\ne 0 1 1 1 0 0 1 1\ne 0 0 -1 0 0 1 0 1\n\
f 1 1 1 1 3\ne 0 0 -1 0 1 0 0 1\ne 0 1 1 1 0 1 0 1\ne 0 -1 0 0 0 0 1 1\n\
end 4\n";
