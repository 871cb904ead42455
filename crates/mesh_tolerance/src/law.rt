// The laws of surfaces whose corners move.
ghost use Rattle.std.specs.Prelude.{List};
ghost use Rattle.std.specs.List.{All, AllByRecursion};
ghost use Rattle.ember_model.specs.declared.point.Spot.{Spot};
ghost use Rattle.mesh_grid.specs.Grid.Closed.{IsSurfaceClosed};
ghost use Rattle.mesh_tolerance.specs.Solids.{AllSolids, DecimalsMeanOutsideMoves, DecimalsMeanOutsideRounding};
ghost use Rattle.mesh_tolerance.specs.Solids.{DecimalsStayNear, FloatsMeanOutsideMoves, FloatsMeanOutsideRounding};
ghost use Rattle.mesh_tolerance.specs.Solids.{FloatsStayNear};
ghost use Rattle.mesh_tolerance.specs.Similar.{AreClearAsAllPlaced, HasWeights, WindAsAllPlaced};
ghost use Rattle.mesh_tolerance.specs.Meshes.{MovesKeepWinding};
ghost use Rattle.mesh_written.specs.Certified.{AllCertified};
ghost use Rattle.mesh_written.specs.Closed.{Positions};
ghost use Rattle.mesh_tolerance.specs.Moves.{AllMovedSurfaces, PointsMoveWithin, WindAsBefore};

/// Let the corners of closed triangles move by at most a distance. Around each point that is clear
/// of the triangles before and after, and farther than the distance from all of them before, they
/// wind as before, counted along any axis. After the move they may cross, turn over or have no area.
pub fn moved_surfaces_wind_as_before()
    ensures { AllMovedSurfaces WindAsBefore }
{}

/// And each point of a triangle moves by at most the distance: the point with the same barycentric
/// coordinates is no farther away. So no point of the triangles before is farther than the distance
/// from those after, and the other way round.
pub fn moved_surfaces_stay_near()
    ensures { AllMovedSurfaces PointsMoveWithin }
{}

/// The same of certified triangles, over the planes of their table before the move, and over planes
/// of their own after it.
pub fn moved_meshes_wind_as_before()
    ensures { AllCertified MovesKeepWinding }
{}

/// In another unit and from another origin triangles wind as before, and what is clear of them stays
/// clear of them.
pub fn similar_triangles_wind_alike()
    ensures alike { (ts : List (Positions Spot)) → AllByRecursion HasWeights ts → WindAsAllPlaced ts }
    ensures clear { (ts : List (Positions Spot)) → AreClearAsAllPlaced ts }
{}

/// From files to the written one: let the surfaces be closed, and the mesh be that of the solid of an
/// expression over them on the grid. At each point that is clear of the surfaces and farther from
/// each of them than its greatest move to the grid, clear of the written triangles, and farther from
/// the exact ones than the greatest move of the rounding, the written triangles wind once where the
/// expression is true of the winding numbers of the surfaces, and not at all elsewhere. Written are
/// floats, or decimals of any number of places.
pub fn written_triangles_have_the_meaning()
    ensures floats { AllSolids (λ g ss x mesh. All IsSurfaceClosed ss → FloatsMeanOutsideMoves g ss x mesh) }
    ensures decimals { AllSolids (λ g ss x mesh. All IsSurfaceClosed ss → DecimalsMeanOutsideMoves g ss x mesh) }
{}

/// The second half of it holds of all surfaces, of those too that are closed only on the grid: the
/// same with the winding numbers of the triangles on the grid, at each point that is clear of them.
pub fn written_triangles_have_the_meaning_of_the_grid()
    ensures floats { AllSolids FloatsMeanOutsideRounding }
    ensures decimals { AllSolids DecimalsMeanOutsideRounding }
{}

/// And each point of an exact triangle is no farther than the greatest move of the rounding from the
/// point with the same barycentric coordinates once the corners are rounded.
pub fn rounded_triangles_stay_near()
    ensures floats { AllSolids (λ g ss x mesh. FloatsStayNear g mesh) }
    ensures decimals { AllSolids (λ g ss x mesh. DecimalsStayNear g mesh) }
{}
