// The laws of the written regions, and of the faces that are read back from their document.
ghost use Rattle.std.specs.Prelude.{List, map};
ghost use Rattle.ember_expr.specs.Formula.{Formula};
ghost use Rattle.ember_meaning.specs.Closed.Chains.{face_from};
ghost use Rattle.ember_meaning.specs.Regions.All.{AllWithMeaning, AllWrittenRegions, DocumentsReadWithMeaning, OutlinesAreSurfaces, WriteTheSame};
ghost use Rattle.ember_meaning.specs.Regions.Meaning.{HaveMeaning};
ghost use Rattle.ember_meaning.specs.Regions.Nearby.{AgreeOver, HaveMeaningNearby, WindNearbyAsHere, WindHereAsNearby, WindOnceAtMost};
ghost use Rattle.ember_model.specs.Limits.{most_meshes};
ghost use Rattle.ember_model.specs.declared.tri.Tri.{Tri};
ghost use Rattle.ember_text.specs.Documents.{written_face};
ghost use Rattle.ember_width.specs.Scenes.{IsSceneWithin};

use ember_width::Width;

/// Let an expression be false if all winding numbers are 0. Take a point that is clear of the faces
/// of a scene and of its written regions. The written regions wind around it once if the expression
/// is true there, and otherwise not at all, whichever axes both are counted along.
pub fn written_regions_have_their_meaning()
    ensures { AllWrittenRegions (λ ts f ks. HaveMeaning ts f (map written_face ks)) }
{}

/// The document of the written regions is a face file. The faces that are read back from it have
/// the same meaning, though each has only the planes of a region's outline. Their written edges are
/// those outlines, and they are a closed surface. Take any line and any point on it: of the written
/// edges that lie on this line, as many start at the point as end there.
pub fn documents_read_with_their_meaning()
    ensures { AllWrittenRegions DocumentsReadWithMeaning }
{}

/// On each grid, the faces of the outlines of the written regions have this meaning. The edges of
/// the outlines are their written edges, and they are a closed surface.
pub fn written_regions_outlined_are_a_surface<W: Width>()
    ensures { (ts : List Tri) → IsSceneWithin W.corner ts most_meshes → OutlinesAreSurfaces W.Width ts }
{}

/// Let the written edges of each face be its outline, and let the faces have the meaning of an
/// expression over a scene. Then they have it near every point, clear or not: at the point shifted
/// along all axes by little enough. If a point is clear of the scene alone, the value of the
/// expression at the point is how often the faces wind around the shifted point. If a point is
/// clear of these faces alone, they wind around it once or not at all, the same along all axes: the
/// value of the expression at the shifted point.
pub fn outlined_faces_have_their_meaning_nearby()
    ensures nearby { AllWithMeaning (λ ts f ws. HaveMeaningNearby ts f (map face_from ws)) }
    ensures scene { AllWithMeaning (λ ts f ws. WindNearbyAsHere ts f (map face_from ws)) }
    ensures alone { AllWithMeaning (λ ts f ws. WindHereAsNearby ts f (map face_from ws)) }
    ensures once { AllWithMeaning (λ ts f ws. WindOnceAtMost (map face_from ws)) }
{}

/// Expressions that agree at the winding numbers of all clear points of a scene have the same
/// written regions. No other expressions share a solid: if the same outlined faces have the meaning
/// of two expressions, these agree there.
pub fn solids_are_one_where_expressions_agree()
    ensures regions { (ts : List Tri) (f g : Formula) → AgreeOver ts f g → WriteTheSame ts f g }
    ensures faces { AllWithMeaning (λ ts f ws.
        (g : Formula) → HaveMeaning ts g (map face_from ws) → AgreeOver ts f g) }
{}
