// The laws of closed surfaces. README.md has the proof in short: why faces that wind alike along all
// axes have paired edges.
ghost use Rattle.std.specs.Prelude.{List, map};
ghost use Rattle.ember_alone.specs.Whole.{AreMissedNearby};
ghost use Rattle.ember_meaning.specs.Closed.Chains.{AgreeOffScene, AreOutlined, HavePairedPieces, IsClosedSurface, face_from};
ghost use Rattle.ember_model.specs.FaceFiles.{WrittenFace};
ghost use Rattle.ember_model.specs.declared.tri.Tri.{Tri};

/// Let the written edges of each face be its outline, and let the faces wind alike along all axes
/// at each point that is clear of them and of some triangles. Then the surface is closed. Take any
/// line and any point on it: of the written edges that lie on this line, as many start at the point
/// as end there.
pub fn agreeing_faces_are_closed()
    ensures { (ts : List Tri) (ws : List WrittenFace) → AreOutlined ws → AgreeOffScene ts ws → IsClosedSurface ws }
{}

/// The same surface piece by piece: take two points with no end of a written edge strictly between
/// them on their line. Then as many written edges lead over both from the first to the second as
/// from the second to the first.
pub fn agreeing_faces_have_paired_pieces()
    ensures { (ts : List Tri) (ws : List WrittenFace) →
        AreOutlined ws → AgreeOffScene ts ws → HavePairedPieces ws }
{}

/// Let the written edges of each face be its outline. Then near every point there are points that
/// are clear of the faces: the point shifted along all axes by little enough is one.
pub fn outlined_faces_are_missed_nearby()
    ensures { (ws : List WrittenFace) → AreOutlined ws → AreMissedNearby (map face_from ws) }
{}
