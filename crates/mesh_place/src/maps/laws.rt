// What holds of affine maps.
ghost use Rattle.std.specs.Prelude.{◌≡◌, ◌*ℤ◌};
ghost use Rattle.ember_algebra.specs.Vector.{Tuple};
ghost use Rattle.mesh_place.specs.AffineMaps.{Affine, image, composed, determinant};

/// The image by one map after another is the image of the image, and its orientation is the product of theirs.
pub fn maps_are_applied_one_after_another()
    ensures image { (a b : Affine) (p : Tuple) → image (composed a b) p ≡ image a (image b p) }
    ensures orientation { (a b : Affine) → determinant (composed a b) ≡ determinant a *ℤ determinant b }
{}
