// What it means that faces aren't apart.
ghost use Rattle.std.specs.Prelude.{◌≡◌, false};
ghost use Rattle.ember_model.specs.declared.point.Spot.{Spot};
ghost use Rattle.ember_model.specs.FaceFiles.{WrittenFace};
ghost use Rattle.mesh_solid.specs.Refusal.Overlaps.{IsRoundAbout, are_apart};

/// Faces whose edges lead around them, and that have an inside point in common, aren't apart.
pub fn faces_with_a_common_inside_point_are_not_apart()
    ensures { (v w : WrittenFace) (p : Spot) → IsRoundAbout v p → IsRoundAbout w p → are_apart v w ≡ false }
{}
