// The laws of what is written: each output has one text, what `faces` and `at` write has its
// meaning, and solids are closed surfaces.
ghost use Rattle.std.specs.Prelude.{◌≡◌, ◌↔◌, ℕ, ℤ, pos, ◌<ℤ◌, true, List};
ghost use Rattle.ember_expr.specs.Formula.{Formula};
ghost use Rattle.ember_io.specs.Shelves.{Told};
ghost use Rattle.ember_model.specs.declared.point.Spot.{Spot};
ghost use Rattle.ember_model.specs.declared.tri.Tri.{Tri};
ghost use Rattle.ember_model.specs.FaceFiles.{IsFaceFile};
ghost use Rattle.ember_model.specs.Clear.{IsClearOf};
ghost use Rattle.ember_model.specs.ClearTest.{is_clear_of};
ghost use Rattle.ember_model.specs.Meshes.{IsBalanced, IsScene, faces_of};
ghost use Rattle.ember_meaning.specs.Regions.Solids.{IsSolidText};
ghost use Rattle.ember_words.specs.declared.command.Command.{Command};
ghost use Rattle.ember_verdict.specs.OfScenes.{IsOfScene};
ghost use Rattle.ember_verdict.specs.OneSolid.{CountsAgreeWhereClear};
ghost use Rattle.ember_verdict.specs.OneText.{AllTexts, AtMostOne, DocumentsAreOutputs, HasOneText, HaveOneErrText};
ghost use Rattle.ember_verdict.specs.OneText.{HaveOneOutText, HaveOneVerdict, IsAlwaysSliceable, IsDecided};
ghost use Rattle.ember_verdict.specs.OneText.{IsNeverRefused, ReadsOnlyAs, WindsOnlyAs, by_workers};
ghost use Rattle.ember_verdict.specs.Outputs.{FaceTexts, IsOutput, Output, SolidFaces};
ghost use Rattle.ember_verdict.specs.Slices.{IsSlice};
ghost use Rattle.ember_verdict.specs.Solids.{IsClosedFile};

/// The solid of an expression over the triangles of a scene has one document: its written regions
/// are one list, and faces have one text. If the expression is false outside, the document is the
/// output, and each output is the document.
pub fn solids_have_one_document()
    ensures document { (tris : List Tri) (meshes : ℕ) (f : Formula) → IsScene tris meshes → AtMostOne (IsSolidText tris f) }
    ensures output { (tris : List Tri) (meshes : ℕ) (f : Formula) → IsScene tris meshes → HasOneText (SolidFaces tris f) }
    ensures same { (tris : List Tri) (meshes : ℕ) → IsScene tris meshes → DocumentsAreOutputs tris }
{}

/// Each accepted input has one output, and one text on err for each status: the words and the
/// contents of their files determine all bytes.
pub fn accepted_inputs_have_one_text()
    ensures out { (words : List (List ℕ)) (told : Told) → IsDecided words told → HaveOneOutText words told }
    ensures err { (words : List (List ℕ)) (told : Told) → IsDecided words told → HaveOneErrText words told }
{}

/// The number of workers changes no verdict. So the output is the same for every number of workers.
pub fn workers_change_no_verdict()
    ensures { (command : Command) (workers : ℕ) → HaveOneVerdict (by_workers workers command) command }
{}

/// Each output has one text: its definition determines all bytes.
pub fn outputs_have_one_text()
    ensures { (output : Output) → IsOfScene output → HasOneText output }
{}

/// The slice of a file at a level has one text.
pub fn slices_of_files_have_one_text()
    ensures { (at : ℤ) (bytes : List ℕ) → AtMostOne (IsSlice at bytes) }
{}

/// From what `faces` writes for the triangles, their faces are read back and no other list of
/// faces. So each winding number of the faces read back is that of the triangles.
pub fn faces_wind_as_read()
    ensures only { (tris : List Tri) → AllTexts (FaceTexts tris) (ReadsOnlyAs (faces_of tris)) }
    ensures wind { (tris : List Tri) → AllTexts (FaceTexts tris) (WindsOnlyAs (faces_of tris)) }
{}

/// The file of a solid is a closed surface. Take any line and any point on it: of the written edges
/// that lie on this line, as many start at the point as end there.
pub fn solids_are_closed()
    ensures { (tris : List Tri) (f : Formula) (bytes : List ℕ) → IsOutput (SolidFaces tris f) bytes →
        IsClosedFile bytes }
{}

/// What `faces` writes for a closed mesh is a closed surface too.
pub fn faces_of_closed_meshes_are_closed()
    ensures { (tris : List Tri) (bytes : List ℕ) → IsBalanced tris → IsOutput (FaceTexts tris) bytes →
        IsClosedFile bytes }
{}

/// A list of bytes is the face file of one list of faces at most.
pub fn face_files_have_one_reading()
    ensures { (bytes : List ℕ) → AtMostOne (IsFaceFile bytes) }
{}

/// The test by which `at` refuses a point finds exactly the points that are clear of a triangle.
pub fn clear_points_are_found()
    ensures { (tri : Tri) (point : Spot) → pos 0 <ℤ point.w → (is_clear_of tri point ≡ true) ↔ IsClearOf tri point }
{}

/// At a point that `at` doesn't refuse, the winding numbers are the same along all axes.
pub fn counts_along_all_axes_agree()
    ensures { (tris : List Tri) (meshes : ℕ) → IsScene tris meshes → CountsAgreeWhereClear tris }
{}

/// `slice` never refuses the document of a solid: no face of it is endless at any level.
pub fn documents_of_solids_can_be_sliced()
    ensures sliceable { (tris : List Tri) (f : Formula) → AllTexts (SolidFaces tris f) IsAlwaysSliceable }
    ensures accepted { (tris : List Tri) (f : Formula) → AllTexts (SolidFaces tris f) IsNeverRefused }
{}
