// The laws of whole triangles in place of written regions.
ghost use Rattle.std.specs.Prelude.{List};
ghost use Rattle.ember_model.specs.declared.tri.Tri.{Tri};
ghost use Rattle.ember_expr.specs.Formula.{Formula};
ghost use Rattle.ember_leaf.specs.KeptRegions.{NarrowKept as Kept};
ghost use Rattle.ember_leaf.specs.Scenes.{IsWritten};
ghost use Rattle.ember_meaning.specs.Closed.Chains.{IsClosedSurface};
ghost use Rattle.ember_meaning.specs.Regions.All.{AllWithMeaning, AllWrittenRegions};
ghost use Rattle.ember_meaning.specs.Whole.Written.{AreFragments, WholeFacesHaveMeaning};

/// The faces of the written regions of a scene are fragments of its triangles, and near every point
/// there are points that are clear of them.
pub fn written_regions_are_fragments()
    ensures { (scene : List Tri) (f : Formula) (ks : List Kept) → IsWritten scene f ks → AreFragments scene ks }
{}

/// Take the written regions of a scene, as fragments of its triangles. Leave out those of some
/// triangles that no other one touches, and add for each of these on whose two sides the expression
/// differs its face, with the front where it is false. The faces have the meaning of the expression.
pub fn whole_faces_keep_the_meaning()
    ensures { AllWrittenRegions (λ ts f ks.
        (are : AreFragments ts ks) → WholeFacesHaveMeaning ts f are.fragments) }
{}

/// Let the written edges of each face be its outline, and let the faces have the meaning of an
/// expression over a scene. Then they are a closed surface.
pub fn faces_with_a_meaning_are_closed()
    ensures { AllWithMeaning (λ ts f ws. IsClosedSurface ws) }
{}
