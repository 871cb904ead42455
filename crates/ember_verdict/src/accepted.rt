// The laws of what is accepted: an input has an output exactly if it is accepted.
ghost use Rattle.std.specs.Prelude.{◌≡◌, ◌↔◌, ℕ, ℤ, List, Some, length};
ghost use Rattle.ember_io.specs.Shelves.{Told};
ghost use Rattle.ember_model.specs.Meshes.{IsScene};
ghost use Rattle.ember_model.specs.declared.tri.Tri.{Tri};
ghost use Rattle.ember_words.specs.declared.command.Command.{Command};
ghost use Rattle.ember_words.specs.WordsCommand.{command_of};
ghost use Rattle.ember_verdict.specs.Accepted.{IsAcceptedSlice, IsSceneOf};
ghost use Rattle.ember_verdict.specs.AcceptedInputs.{HasSlice, WritesIfAccepting};
ghost use Rattle.ember_verdict.specs.Verdict.{Contents};

/// The verdict on words is an output exactly if their command accepts what they give: files,
/// expression and point. The output is that of the accepted triangles and tree. The verdict on
/// `slice` is an output exactly if the face file is accepted at the level.
pub fn inputs_are_accepted_where_they_have_an_output()
    ensures outputs { (words : List (List ℕ)) (given : Command) →
        command_of words ≡ Some given → WritesIfAccepting given }
    ensures slice { (at : ℤ) (name : List ℕ) (told : Told) → HasSlice told at name ↔ IsAcceptedSlice at (told name) }
{}

/// The triangles of accepted files are a scene with one mesh for each file.
pub fn accepted_files_are_a_scene()
    ensures { (places : ℕ) (told : Contents) (tris : List Tri) → IsSceneOf places told tris → IsScene tris (length told) }
{}
