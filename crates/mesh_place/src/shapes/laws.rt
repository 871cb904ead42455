// The shapes are closed.
ghost use Rattle.std.specs.Prelude.{ℕ, ◌≤◌};
ghost use Rattle.mesh_place.specs.Shapes.{HasNoBoundary, box_facets, cylinder_facets};

/// The triangles of a box and those of a cylinder of three sides or more have no boundary: each
/// directed edge between vertices occurs as often as its reverse.
pub fn boxes_and_cylinders_are_closed()
    ensures boxes { HasNoBoundary box_facets }
    ensures cylinders { (sides : ℕ) → 3 ≤ sides → HasNoBoundary (cylinder_facets sides) }
{}
