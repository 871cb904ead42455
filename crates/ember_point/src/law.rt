// The law of sizes: the value of a plane at a meet fits into 128 bits.
ghost use Rattle.ember_algebra.specs.Size.{Small};
ghost use Rattle.ember_model.specs.declared.plane.Plane.{Plane};
ghost use Rattle.ember_model.specs.declared.point.Spot.{Spot};
ghost use Rattle.ember_model.specs.Planes.{value_at};
ghost use Rattle.ember_model.specs.Valid.{IsValidMeet, IsValidPlane};

/// The value of a valid plane at a meet is below 2^119 in size.
pub fn values_at_meets_are_small()
    ensures { (p : Plane) (m : Spot) → IsValidPlane p → IsValidMeet m →
        Small 664613997892457936451903530140172287 (value_at p m) }
{}
