// The law of the text of faces.
ghost use Rattle.std.specs.Prelude.{◌≡◌, ℕ, List};
ghost use Rattle.ember_model.specs.declared.face.Face.{Face};
ghost use Rattle.ember_model.specs.FaceFiles.{IsFileText};

/// Faces have one text: each has one outline, and its corners are in lowest terms.
pub fn faces_have_one_text()
    ensures { (faces : List Face) (one other : List ℕ) → IsFileText faces one → IsFileText faces other → one ≡ other }
{}
