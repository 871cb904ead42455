// The laws of triangles that no other one touches.
ghost use Rattle.std.specs.Prelude.{List};
ghost use Rattle.ember_model.specs.declared.tri.Tri.{Tri};
ghost use Rattle.ember_alone.specs.UniformSides.{AreBalanced, AloneHaveUniformSides};
ghost use Rattle.ember_alone.specs.Whole.{WholeFacesWindAlike};
ghost use Rattle.ember_alone.specs.Neighbours.{NeighboursAgree};

/// A triangle of closed meshes that no other one touches has one value on each of its sides: all
/// parts of its face have the same winding numbers before and after them.
pub fn alone_triangles_have_uniform_sides()
    ensures { (ts : List Tri) → AreBalanced ts → AloneHaveUniformSides ts }
{}

/// Let fragments of the triangles of closed meshes wind once where a condition holds of the winding
/// numbers, and not at all elsewhere. Take away the fragments of triangles that no other one touches,
/// and add for each of them on whose two sides the condition differs its face, with the front where
/// it doesn't hold. These faces wind where the fragments do.
pub fn whole_faces_wind_alike()
    ensures { (ts : List Tri) → AreBalanced ts → WholeFacesWindAlike ts }
{}

/// Let no other triangle touch two triangles of closed meshes. Let an edge lead from one corner to
/// another in the first, and back in the second, and let no third triangle with a face have both
/// corners. Then the two have equal winding numbers behind them, and equal ones in front.
pub fn neighbours_have_equal_values()
    ensures { (ts : List Tri) → AreBalanced ts → NeighboursAgree ts }
{}
