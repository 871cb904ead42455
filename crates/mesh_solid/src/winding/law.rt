// The law of certified triangles.
ghost use Rattle.mesh_solid.specs.Winding.Certified.{AllCertifiedFor};
ghost use Rattle.mesh_solid.specs.Winding.TriangleFaces.{WindAlike, WindAlikeNearby};

/// Let the written edges of each face be its outline, and let triangles be certified for the tables
/// of these faces. Then the triangles wind as the faces, along each axis: at each point that is
/// clear of both, and near each point whatever.
pub fn certified_triangles_wind_as_faces()
    ensures alike { AllCertifiedFor WindAlike }
    ensures nearby { AllCertifiedFor WindAlikeNearby }
{}
