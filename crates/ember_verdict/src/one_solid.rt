// The laws of one solid: what several commands write of the same scene and expression agrees.
ghost use Rattle.std.specs.Prelude.{ℕ, List};
ghost use Rattle.ember_expr.specs.Formula.{Formula};
ghost use Rattle.ember_meaning.specs.Regions.Nearby.{WindNearbyAsHere, WindHereAsNearby, WindOnceAtMost};
ghost use Rattle.ember_model.specs.declared.tri.Tri.{Tri};
ghost use Rattle.ember_model.specs.Meshes.{IsScene};
ghost use Rattle.ember_verdict.specs.OneSolid.{AllFacesOfSolid, AreOneIfAgreeing, LatticesSample, LatticesSampleNearby};
ghost use Rattle.ember_verdict.specs.OneSolid.{SlicesCrossOnceAtMost, SlicesHaveMeaning, ValuesAreOfFaces};
ghost use Rattle.ember_verdict.specs.OneText.{AllTexts};
ghost use Rattle.ember_verdict.specs.Outputs.{SolidFaces};

/// Around each point that is clear of the faces of a solid, they wind once or not at all, the same
/// along all axes: once if the expression is true at the point shifted along all axes by little
/// enough. If a point is clear of the scene's faces, the faces of the solid wind around the shifted
/// point once if the expression is true at the point itself, and otherwise not at all.
pub fn solids_wind_once_at_most()
    ensures once { (tris : List Tri) (f : Formula) → AllFacesOfSolid tris f WindOnceAtMost }
    ensures alone { (tris : List Tri) (f : Formula) → AllFacesOfSolid tris f (WindHereAsNearby tris f) }
    ensures scene { (tris : List Tri) (f : Formula) → AllFacesOfSolid tris f (WindNearbyAsHere tris f) }
{}

/// Two expressions have the same document over a scene exactly if they have one value at the
/// winding numbers of each point that is clear of the scene's faces.
pub fn solids_are_one_where_expressions_agree()
    ensures { (tris : List Tri) (meshes : ℕ) (f g : Formula) → IsScene tris meshes → AreOneIfAgreeing tris f g }
{}

/// Take a slice of a solid's document, and a point of the level that is clear of the scene's faces
/// and of the document's. The signed crossings of the point's ray along x with the slice's segments
/// add up to 1 if the expression is true there, and otherwise to 0; so do those along y. At a point
/// that is clear of the document's faces alone they add up to 1 or 0, the same along both.
pub fn slices_of_solids_mean_the_expression()
    ensures clear { (tris : List Tri) (f : Formula) → AllTexts (SolidFaces tris f) (SlicesHaveMeaning tris f) }
    ensures once { (tris : List Tri) (f : Formula) → AllTexts (SolidFaces tris f) SlicesCrossOnceAtMost }
{}

/// Let `at` write a value for a point. If the point is clear of the solid's faces, they wind around
/// it as often as the value says. In any case they do so around the point shifted by little enough.
pub fn values_at_points_are_of_the_solid()
    ensures { (tris : List Tri) (f : Formula) → AllFacesOfSolid tris f (ValuesAreOfFaces tris f) }
{}

/// If a cell's reference point is clear of the faces of the solid, they wind around it, along all
/// axes, as often as the cell's bit in the lattice says. A reference point is clear of the scene's
/// faces, but not always of the document's. Around the point shifted along all axes by little
/// enough they wind as the bit says in any case.
pub fn lattices_sample_the_solid()
    ensures clear { (tris : List Tri) (meshes : ℕ) (f : Formula) → IsScene tris meshes → LatticesSample tris f }
    ensures nearby { (tris : List Tri) (meshes : ℕ) (f : Formula) → IsScene tris meshes → LatticesSampleNearby tris f }
{}
