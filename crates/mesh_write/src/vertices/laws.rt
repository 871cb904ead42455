// What the vertices of triangles are.
ghost use Rattle.std.specs.Prelude.{◌≡◌, List, map};
ghost use Rattle.std.specs.List.{IsDistinct};
ghost use Rattle.mesh_write.specs.declared.vertices.point.DecimalTriangle.{DecimalTriangle};
ghost use Rattle.mesh_write.specs.Vertices.Vertices.{same_point, vertices_of, indexed, over};

/// The indices of a mesh's triangles lead to the corners of the triangles that it was made of.
pub fn indices_lead_to_corners()
    ensures { (ts : List DecimalTriangle) →
        map (over (vertices_of ts)) (map (indexed (vertices_of ts)) ts) ≡ ts }
{}

/// No two vertices of a mesh are the same point.
pub fn vertices_are_distinct()
    ensures { (ts : List DecimalTriangle) → IsDistinct same_point (vertices_of ts) }
{}
