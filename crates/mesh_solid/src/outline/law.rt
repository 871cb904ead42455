// The law of round faces.
ghost use Rattle.ember_meaning.specs.Closed.Chains.{IsOutlined};
ghost use Rattle.ember_model.specs.FaceFiles.{WrittenFace};
ghost use Rattle.mesh_solid.specs.Outline.Rounds.{IsRound};

/// Edges that lead once around a convex polygon are the outline of the face that their planes bound.
pub fn round_faces_are_outlined()
    ensures { (w : WrittenFace) → IsRound w → IsOutlined w }
{}
