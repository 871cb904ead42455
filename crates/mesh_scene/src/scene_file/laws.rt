// What is written is read again.
ghost use Rattle.std.specs.Prelude.{◌≡◌, ℕ, List, All};
ghost use Rattle.mesh_grid.specs.declared.grid.grid.Grid.{Grid};
ghost use Rattle.mesh_grid.specs.declared.moves.length.Length.{Length};
ghost use Rattle.mesh_scene.specs.declared.scene.counts.Counts.{Counts};
ghost use Rattle.mesh_scene.specs.SceneFile.Scenes.{IsSceneOf};
ghost use Rattle.mesh_scene.specs.SceneFile.Texts.{files_of, IsSceneText};
ghost use Rattle.mesh_scene.specs.SceneFile.ReadBack.{IsShort, IsFile, IsSameGrid};

/// The text of a scene is read as a grid with the same places, if its offset has 64 bits.
pub fn written_scenes_are_read()
    ensures { (g : Grid) (names : List (List ℕ)) (counts : List Counts) (moves : List Length) (text : List ℕ) →
        IsSceneText g names counts moves text → IsShort g.offset → All IsFile (files_of names counts moves) →
        (h : Grid) × IsSceneOf text h × IsSameGrid g h }
{}

/// Bytes are the scene of one grid at most.
pub fn scenes_have_one_grid()
    ensures { (bytes : List ℕ) (g h : Grid) → IsSceneOf bytes g → IsSceneOf bytes h → g ≡ h }
{}
