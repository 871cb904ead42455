// The laws of slices.
ghost use Rattle.std.specs.Prelude.{◌≡◌, ℕ, ℤ, pos, ◌<ℤ◌, List};
ghost use Rattle.ember_algebra.specs.Sums.{total};
ghost use Rattle.ember_model.specs.declared.face.Face.{Face};
ghost use Rattle.ember_model.specs.declared.point.Axis.TheVariants.{X, Y};
ghost use Rattle.ember_model.specs.declared.point.Spot.{Spot};
ghost use Rattle.ember_model.specs.Meshes.{wind};
ghost use Rattle.ember_model.specs.Planes.{value_at};
ghost use Rattle.ember_slice.specs.Crossings.{ray_x, ray_y};
ghost use Rattle.ember_slice.specs.Lines.{level};
ghost use Rattle.ember_slice.specs.Segments.{IsSliceText};

/// At each point of the level plane the signed crossings of the ray along x with the segments of a
/// slice add up to the winding number of its faces along x, and those along y to that along y.
pub fn segments_wind_as_faces()
    ensures x { (faces : List Face) (at : ℤ) (bytes : List ℕ) (text : IsSliceText faces at bytes) (p : Spot) →
        pos 0 <ℤ p.w → value_at (level at) p ≡ pos 0 → total (ray_x p) text.segments ≡ wind X faces p }
    ensures y { (faces : List Face) (at : ℤ) (bytes : List ℕ) (text : IsSliceText faces at bytes) (p : Spot) →
        pos 0 <ℤ p.w → value_at (level at) p ≡ pos 0 → total (ray_y p) text.segments ≡ wind Y faces p }
{}

/// The faces have one text at a level.
pub fn slices_have_one_text()
    ensures { (faces : List Face) (at : ℤ) (one other : List ℕ) → IsSliceText faces at one →
        IsSliceText faces at other → one ≡ other }
{}
