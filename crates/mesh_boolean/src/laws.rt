// What outputs mean, and which files are never open.
ghost use Rattle.std.specs.Prelude.{List};
ghost use Rattle.mesh_boolean.specs.declared.files.InputFile.{InputFile};
ghost use Rattle.mesh_boolean.specs.declared.wanted.WantedFile.{WantedFile};
ghost use Rattle.mesh_boolean.specs.Files.{AreClosedWherePlaced};
ghost use Rattle.mesh_boolean.specs.Meanings.{AllOutputs, AreNeverOpen, FacesAreClosed, FacesHaveMeaning};
ghost use Rattle.mesh_boolean.specs.Meanings.{TrianglesHaveMeaning, TrianglesWindOnceAtMost};
ghost use Rattle.mesh_boolean.specs.Tolerance.{MeansOutsideMoves, MeansOutsideRounding};

use mesh_scene::closed_surfaces_are_never_open;

/// Let an expression be false if all winding numbers are 0. The faces that the triangles of an
/// output cut up, before these are rounded, wind once where it is true of the files' triangles on
/// the grid, and not at all elsewhere, and they are a closed surface.
pub fn faces_of_outputs_have_the_meaning()
    ensures means { AllOutputs FacesHaveMeaning }
    ensures closed { AllOutputs FacesAreClosed }
{}

/// Let an expression be false if all winding numbers are 0. The triangles of an output, before they
/// are rounded, wind once where it is true of the files' triangles on the grid, and not at all
/// elsewhere. Around each point that is clear of the output's triangles alone, they wind once or not
/// at all.
pub fn triangles_of_outputs_have_the_meaning()
    ensures means { AllOutputs TrianglesHaveMeaning }
    ensures once { AllOutputs TrianglesWindOnceAtMost }
{}

/// From files to the written one. Let an expression be false if all winding numbers are 0, and the
/// surfaces of the files closed by the exact positions of their corners. At each point that is
/// clear of them and farther from each of them than its greatest move to the grid, and clear of the
/// written triangles and farther from the exact ones than the greatest rounding move, the written
/// triangles wind once where the expression is true of the winding numbers of the surfaces, and not
/// at all elsewhere. With the winding numbers of the triangles on the grid this holds of all files.
pub fn written_files_have_the_meaning()
    ensures files { AllOutputs MeansOutsideMoves }
    ensures grid { AllOutputs MeansOutsideRounding }
{}

/// Files whose surfaces, where they are placed, are closed by the exact positions of their corners
/// are never refused as open.
pub fn closed_files_are_never_open()
    ensures { (files : List InputFile) (wanted : WantedFile) →
        AreClosedWherePlaced files wanted.placings.now → AreNeverOpen files wanted }
{
    closed_surfaces_are_never_open();
}
