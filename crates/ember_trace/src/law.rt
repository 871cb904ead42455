// The law of slid planes: a support plane stays valid if one or two coordinates are fixed.
ghost use Rattle.std.specs.Prelude.{ℤ};
ghost use Rattle.ember_model.specs.Limits.{wall_limit};
ghost use Rattle.ember_algebra.specs.Size.{Small};
ghost use Rattle.ember_model.specs.declared.plane.Plane.{Plane};
ghost use Rattle.ember_model.specs.declared.point.Axis.{Axis};
ghost use Rattle.ember_model.specs.Sizes.{IsSupportSized};
ghost use Rattle.ember_model.specs.Valid.{IsValidPlane};
ghost use Rattle.ember_point.specs.Points.{slid};

/// A support plane with one coordinate fixed has a constant below 2^38 in size, and with two fixed a constant below
/// 2^39. So both are valid planes.
pub fn slid_support_planes_are_valid()
    ensures once { (p : Plane) (k : Axis) (at : ℤ) → IsSupportSized p → Small wall_limit at →
        IsValidPlane (slid p k at) }
    ensures constant { (p : Plane) (k : Axis) (at : ℤ) → IsSupportSized p → Small wall_limit at →
        Small 274877906943 (slid p k at).d }
    ensures twice { (p : Plane) (j k : Axis) (at by : ℤ) → IsSupportSized p → Small wall_limit at →
        Small wall_limit by → IsValidPlane (slid (slid p j at) k by) }
{}
