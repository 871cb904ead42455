// What equal keys mean.
ghost use Rattle.std.specs.Prelude.{◌≡◌, ◌↔◌};
ghost use Rattle.ember_model.specs.declared.plane.Plane.{Plane};
ghost use Rattle.mesh_certificate.specs.declared.key.lines.LineKey.{LineKey};
ghost use Rattle.mesh_certificate.specs.Key.PlaneKeys.{IsPlaneKey, IsSameOriented, HaveSameSides, HasNormal};
ghost use Rattle.mesh_certificate.specs.Key.LineKeys.{IsLineKey, HaveSameMeet};

/// Two planes have one key exactly if they are one oriented plane: if a positive multiple of the
/// one is a positive multiple of the other, and, if the first has a normal, exactly if each point
/// is on the same side of both.
pub fn plane_keys_are_oriented_planes()
    ensures multiples { (p q k l : Plane) → IsPlaneKey p k → IsPlaneKey q l → (k ≡ l) ↔ IsSameOriented p q }
    ensures sides { (p q k l : Plane) → IsPlaneKey p k → IsPlaneKey q l → HasNormal p →
        (k ≡ l) ↔ HaveSameSides p q }
{}

/// Two pairs of planes that meet in a line have one key exactly if the points of both pairs are the
/// same.
pub fn line_keys_are_lines()
    ensures { (p q r s : Plane) (k l : LineKey) → IsLineKey p q k → IsLineKey r s l → (k ≡ l) ↔ HaveSameMeet p q r s }
{}
