// What it means that triangles aren't apart.
ghost use Rattle.std.specs.Prelude.{◌≢◌, pos};
ghost use Rattle.ember_model.specs.declared.plane.Plane.{Plane};
ghost use Rattle.ember_model.specs.declared.point.Spot.{Spot};
ghost use Rattle.ember_model.specs.declared.tri.Tri.{Tri};
ghost use Rattle.mesh_sources.specs.declared.facet.Facet.{Facet};
ghost use Rattle.mesh_sources.specs.Places.{Spots, spots_of, spots_in_order, spots_seen, facing};
ghost use Rattle.mesh_sources.specs.Places.{AreApart, AreOn, IsInner, IsPlace, IsProper, IsTriangleOn};

/// Triangles of one plane that have an inner point in common aren't apart.
pub fn triangles_with_a_common_inner_point_are_not_apart()
    ensures { (p : Plane) (r s : Spots) (x : Spot) → IsTriangleOn p r → IsTriangleOn p s → IsInner p r x →
        IsInner p s x → AreApart p r s → ⊥ }
{}

/// A triangle of the scene with an area, in the plane of a facet that faces its front, is a place of
/// the facet if the two have an inner point in common.
pub fn triangles_with_a_common_inner_point_are_places()
    ensures { (f : Facet) (t : Tri) (x : Spot) → IsProper f → AreOn f.plane (spots_in_order t) →
        facing f.plane t ≢ pos 0 → IsInner f.plane (spots_of f.corners) x →
        IsInner f.plane (spots_seen f.plane t) x → IsPlace f t }
{}
