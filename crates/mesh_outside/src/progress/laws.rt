// What the weights of boxes are together.
ghost use Rattle.std.specs.Prelude.{◌≡◌, ◌+◌, ◌*◌, ◌^◌, ◌<◌, ℕ};
ghost use Rattle.mesh_outside.specs.Progress.Boxes.{Boxes, paths, left_weight, other_weight};
ghost use Rattle.mesh_outside.specs.Progress.Weights.{weight_of};

/// Each half of a box weighs half as much as the box, if that was halved fewer than 16 times.
pub fn halves_weigh_half()
    ensures left { (path : ℕ) → 0 < path → path < 2 ^ 16 → weight_of (2 * path) * 2 ≡ weight_of path }
    ensures right { (path : ℕ) → 0 < path → path < 2 ^ 16 → weight_of (2 * path + 1) * 2 ≡ weight_of path }
{}

/// When all boxes of a run have been entered, those that aren't halved have the weight of the root: the
/// weights that were added, less those that left halves took off.
pub fn all_boxes_weigh_as_the_root()
    ensures { (boxes : Boxes) → other_weight (paths 1 boxes) ≡ left_weight (paths 1 boxes) + 2 ^ 16 }
{}
