// The laws of the meshes of solids and documents.
ghost use Rattle.std.specs.Prelude.{ℕ, List};
ghost use Rattle.ember_meaning.specs.Closed.Chains.{IsClosedSurface};
ghost use Rattle.ember_expr.specs.Formula.{Formula};
ghost use Rattle.ember_meaning.specs.Regions.Meaning.{IsFalseOutside, HaveMeaning, AreSurfaceWithMeaning};
ghost use Rattle.ember_meaning.specs.Regions.Nearby.{WindOnceAtMost};
ghost use Rattle.ember_model.specs.declared.tri.Tri.{Tri};
ghost use Rattle.ember_model.specs.Limits.{broad_limit, most_meshes};
ghost use Rattle.ember_model.specs.Meshes.{IsScene};
ghost use Rattle.ember_width.specs.Scenes.{IsSceneWithin};
ghost use Rattle.mesh_solid.specs.Winding.TriangleFaces.{WindAlike, WindAlikeNearby};
ghost use Rattle.mesh_solid.specs.declared.mesh.mesh.SolidMesh.{SolidMesh};
ghost use Rattle.mesh_solid.specs.declared.mesh.solid.SolidRun.{SolidRun};
ghost use Rattle.mesh_solid.specs.Mesh.FaceMeshes.{IsBroadRun, IsMeshOfSolid};
ghost use Rattle.mesh_solid.specs.Mesh.Meshes.{IsDocumentMesh, IsSolidMesh};
ghost use Rattle.mesh_solid.specs.Mesh.All.{AllOutlined, AllSolidMeshes, HasClosedEdges};
ghost use Rattle.mesh_solid.specs.Mesh.MeshFaces.{faces_of_mesh};

/// Let an expression be false if all winding numbers are 0. The faces that the mesh of its solid
/// cuts up wind once where it is true of the scene, and not at all elsewhere, and they are a closed
/// surface.
pub fn faces_of_meshes_have_the_meaning()
    ensures means { AllSolidMeshes (λ tris f mesh is. HaveMeaning tris f is.of_document.tables_are.faces) }
    ensures closed { AllSolidMeshes (λ tris f mesh is. IsClosedSurface is.of_document.tables_are.read.written) }
{}

/// Let an expression be false if all winding numbers are 0. The triangles of the mesh of its solid
/// wind once where it is true of the scene, and not at all elsewhere: at each point that is clear of
/// the scene and of the triangles, along each axis. Around each point that is clear of the triangles
/// alone, they wind once or not at all. And they wind as the faces that the mesh cuts up.
pub fn triangles_of_meshes_have_the_meaning()
    ensures means { AllSolidMeshes (λ tris f mesh is. HaveMeaning tris f (faces_of_mesh mesh)) }
    ensures once { AllSolidMeshes (λ tris f mesh is. WindOnceAtMost (faces_of_mesh mesh)) }
    ensures faces { AllSolidMeshes (λ tris f mesh is.
        WindAlike is.of_document.tables_are.faces (faces_of_mesh mesh)) }
{}

/// The triangles of the mesh of a document wind as its faces, along each axis: at each point that is
/// clear of both, and near each point whatever. And they are closed: from each corner to each other
/// one run as many of their edges as back.
pub fn triangles_of_documents_wind_as_faces()
    ensures alike { AllOutlined (λ bytes mesh is.
        WindAlike is.of_document.tables_are.faces (faces_of_mesh mesh)) }
    ensures nearby { AllOutlined (λ bytes mesh is.
        WindAlikeNearby is.of_document.tables_are.faces (faces_of_mesh mesh)) }
    ensures closed { (bytes : List ℕ) (mesh : SolidMesh) → IsDocumentMesh bytes mesh → HasClosedEdges mesh }
{}

/// On both grids: let an expression be false if all winding numbers are 0. The faces of its solid are
/// outlined, wind once where it is true of the scene and not at all elsewhere, and are a closed surface.
/// The triangles of their mesh wind alike: once where it is true of the scene, and not at all elsewhere,
/// at each point that is clear of the scene and of the triangles, along each axis. Around each point
/// that is clear of the triangles alone, they wind once or not at all. And they are closed: from each
/// corner to each other one run as many of their edges as back.
pub fn meshes_of_solids_have_the_meaning()
    ensures surface { (tris : List Tri) (formula : Formula) (mesh : SolidMesh) → IsFalseOutside formula →
        (is : IsMeshOfSolid tris formula mesh) → AreSurfaceWithMeaning tris formula is.faces }
    ensures means { (tris : List Tri) (formula : Formula) (mesh : SolidMesh) → IsFalseOutside formula →
        IsMeshOfSolid tris formula mesh → HaveMeaning tris formula (faces_of_mesh mesh) }
    ensures once { (tris : List Tri) (formula : Formula) (mesh : SolidMesh) → IsFalseOutside formula →
        IsMeshOfSolid tris formula mesh → WindOnceAtMost (faces_of_mesh mesh) }
    ensures faces { (tris : List Tri) (formula : Formula) (mesh : SolidMesh) → IsFalseOutside formula →
        (is : IsMeshOfSolid tris formula mesh) → WindAlike is.faces (faces_of_mesh mesh) }
    ensures closed { (tris : List Tri) (formula : Formula) (mesh : SolidMesh) → IsMeshOfSolid tris formula mesh →
        HasClosedEdges mesh }
    ensures narrow { (tris : List Tri) (meshes : ℕ) (formula : Formula) (mesh : SolidMesh) → IsScene tris meshes →
        IsSolidMesh tris formula mesh → IsMeshOfSolid tris formula mesh }
    ensures broad { (tris : List Tri) (formula : Formula) (solid : SolidRun) →
        IsSceneWithin broad_limit tris most_meshes → IsBroadRun tris formula solid →
        IsMeshOfSolid tris formula solid.mesh }
{}
