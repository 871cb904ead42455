// The sources of the triangles of a mesh.
ghost use Rattle.std.specs.Prelude.{◌≡◌, ◌≤◌, length, count_by, is_some, All, IfOk, MatchOption, None};
ghost use Rattle.ember_model.specs.Limits.{most_triangles};
ghost use Rattle.ember_model.specs.Valid.{IsValidPlane, IsValidTri};
ghost use Rattle.mesh_sources.specs.Sources.{facet_of, EachSource, IsSourceCount};
ghost use Rattle.mesh_sources.specs.Nodes.{AreNodes, IsFoundFrom};

use crate::facet::{facet_of, is_proper};
use crate::items::items_of;
use crate::nodes::{Node, bounds_over, nodes_of};
use crate::search::first_place;
use crate::source::Source;
use ember_model::{OutOfMemory, Plane, Tri};
use mesh_certificate::Triangle;
use mesh_point::SpacePoint;
use std::alloc::Global;

fn source_of(
    nodes: &[Node],
    points: &[SpacePoint],
    planes: &[Plane],
    t: &Triangle,
) -> Option<Source>
    requires nodes { AreNodes nodes.now }
    requires valid { All (λ n. IsValidTri n.item.tri) nodes.now }
    requires planes { All IsValidPlane planes.now }
    ensures { MatchOption (facet_of points.now planes.now t.now) (result ≡ None)
        (λ f. IsFoundFrom nodes.now 0 f result) }
{
    let facet = facet_of(points, planes, t)?;
    if !is_proper(&facet) {
        return None;
    }
    first_place(nodes, &facet, &bounds_over(&facet))
}

/// For each triangle of a mesh the first triangle of the scene, in its order, that has an area, lies
/// in its plane and isn't apart from it; none where there is none. A triangle of the mesh has none
/// if a number of it leads nowhere, or if it doesn't face the front of its plane.
pub fn sources_of(
    alloc: Global,
    scene: &[Tri],
    points: &[SpacePoint],
    planes: &[Plane],
    triangles: &[Triangle],
) -> Result<Vec<Option<Source>>, OutOfMemory>
    requires few { length scene.now ≤ most_triangles }
    requires scene { All IsValidTri scene.now }
    requires planes { All IsValidPlane planes.now }
    ensures { IfOk result (λ sources. EachSource scene.now points.now planes.now triangles.now sources.items) }
{
    let items = items_of(alloc, scene)?;
    let nodes = nodes_of(alloc, &items)?;
    let mut sources = Vec::with_capacity(alloc, triangles.len())?;
    for t in triangles {
        sources.push(source_of(&nodes, points, planes, t))?;
    }
    Ok(sources)
}

// How many of the sources are there.
fn count_of(sources: &[Option<Source>]) -> u64
    ensures { result ≡ count_by is_some sources.now }
{
    sources.iter().filter(|source| source.is_some()).count() as u64
}

/// How many triangles of a mesh have a source among the triangles of the scene, as
/// [`sources_of`] finds it. The only error is out-of-memory.
pub fn source_count(
    alloc: Global,
    scene: &[Tri],
    points: &[SpacePoint],
    planes: &[Plane],
    triangles: &[Triangle],
) -> Result<u64, OutOfMemory>
    requires few { length scene.now ≤ most_triangles }
    requires scene { All IsValidTri scene.now }
    requires planes { All IsValidPlane planes.now }
    ensures { IfOk result (IsSourceCount scene.now points.now planes.now triangles.now) }
{
    let sources = sources_of(alloc, scene, points, planes, triangles)?;
    Ok(count_of(&sources))
}
