// Files of the cases.

/// An OBJ file of a tetrahedron.
pub const TETRA_OBJ: &[u8] = b"\
v 0 0 0\nv 1 0 0\nv 0 1 0\nv 0 0 1\nf 1 3 2\nf 1 2 4\nf 1 4 3\nf 2 3 4\n";

/// Its face file.
pub const TETRA_TEXT: &[u8] = b"\
ember 1\n\
f 0 0 -1 0 3\ne -1 0 0 0 0 0 0 1\ne 1 1 0 1 0 1 0 1\ne 0 -1 0 0 1 0 0 1\n\
f 0 -1 0 0 3\ne 0 0 -1 0 0 0 0 1\ne 1 0 1 1 1 0 0 1\ne -1 0 0 0 0 0 1 1\n\
f -1 0 0 0 3\ne 0 -1 0 0 0 0 0 1\ne 0 1 1 1 0 0 1 1\ne 0 0 -1 0 0 1 0 1\n\
f 1 1 1 1 3\ne 0 0 -1 0 1 0 0 1\ne 0 1 1 1 0 1 0 1\ne 0 -1 0 0 0 0 1 1\n\
end 4\n";
