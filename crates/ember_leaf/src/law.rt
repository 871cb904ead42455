// The law of the special cases: without them the written regions are the same.
ghost use Rattle.std.specs.Prelude.{ℕ, List};
ghost use Rattle.ember_expr.specs.Formula.{Formula};
ghost use Rattle.ember_box.specs.Boxes.{Cell};
ghost use Rattle.ember_leaf.specs.KeptRegions.{NarrowKept as Kept};
ghost use Rattle.ember_leaf.specs.Scenes.{HasOneValue, IsWritten};
ghost use Rattle.ember_leaf.specs.Literal.{IsLiterallyWrittenOf, IsLiterallyWrittenIn, IsLiterallyWritten};
ghost use Rattle.ember_leaf.specs.Literal.{InScenes, CannotLackList, IsNothing, CoveredWriteNothing, WrittenAreLiteral};

/// The definition of what is written has two special cases: a triangle that an earlier coplanar one
/// covers, and a leaf in which the expression has one value. Let the literal definition be the one
/// without them. By it too a covered triangle and such a leaf write nothing. In a scene of closed
/// meshes it can't fail to give a list: for a triangle, for a leaf, and for the scene. (The
/// prover's logic is constructive. To prove that there is a list would take a function that finds
/// one, so the law says that it can't be that there is none.) A list that it gives for a scene is
/// the one that is written, and a list that is written can't fail to be literal.
pub fn special_cases_are_the_literal_definition()
    ensures covered { InScenes CoveredWriteNothing }
    ensures one_value { InScenes (λ s e. (c : Cell) → HasOneValue s e c → IsNothing (IsLiterallyWrittenIn s e c)) }
    ensures triangles { InScenes (λ s e. (c : Cell) (i : ℕ) → CannotLackList (IsLiterallyWrittenOf s e c i)) }
    ensures leaves { InScenes (λ s e. (c : Cell) → CannotLackList (IsLiterallyWrittenIn s e c)) }
    ensures scenes { InScenes (λ s e. CannotLackList (IsLiterallyWritten s e)) }
    ensures written { InScenes (λ s e. (ks : List Kept) → IsLiterallyWritten s e ks → IsWritten s e ks) }
    ensures literal { InScenes WrittenAreLiteral }
{}
