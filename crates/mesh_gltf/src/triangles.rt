// The triangles of a primitive.
ghost use Rattle.std.specs.Prelude.{◌≡◌, ◌+◌, ◌≤◌, ◌<◌, ◌^◌, ◌++◌, [], ◌∷◌, false, length, OnOk};
ghost use Rattle.mesh_gltf.specs.Triangles.{triangle, of_list, of_strip, of_fan, triangles_of};

use mesh_read::Facet;
use std::alloc::AllocError;

// How the corners of a primitive are triangles.
#[derive(Clone, Copy)]
pub(crate) enum Topology {
    Triangles,
    Strip,
    Fan,
}

fn push(facets: &mut Vec<Facet>, place: u32, corners: [u32; 3]) -> Result<(), AllocError>
    ensures { OnOk result (facets.new.items
        ≡ facets.old.items ++ record { corners = corners; place = place } ∷ []) }
{
    facets.push(Facet { corners, place })?;
    Ok(())
}

// Appends the triangles of each three corners.
fn push_list(facets: &mut Vec<Facet>, place: u32, corners: &[u32]) -> Result<(), AllocError>
    requires { place + length corners.now < 2 ^ 32 }
    ensures { OnOk result (facets.new.items ≡ facets.old.items ++ of_list place corners.now) }
{
    let mut place = place;
    let mut rest = corners;
    while let Some((a, others)) = rest.split_first() {
        let Some((b, others)) = others.split_first() else {
            return Ok(());
        };
        let Some((c, after)) = others.split_first() else {
            return Ok(());
        };
        push(facets, place, [*a, *b, *c])?;
        place += 1;
        rest = after;
    }
    Ok(())
}

// Appends the triangles of each corner with the two before it.
fn push_strip(
    facets: &mut Vec<Facet>,
    place: u32,
    first: u32,
    second: u32,
    others: &[u32],
) -> Result<(), AllocError>
    requires { place + length others.now < 2 ^ 32 }
    ensures { OnOk result (facets.new.items ≡ facets.old.items ++ of_strip false place first second others.now) }
{
    let mut place = place;
    let mut a = first;
    let mut b = second;
    let mut odd = false;
    let mut rest = others;
    while let Some((c, after)) = rest.split_first() {
        let corners = if odd { [b, a, *c] } else { [a, b, *c] };
        push(facets, place, corners)?;
        place += 1;
        a = b;
        b = *c;
        odd = !odd;
        rest = after;
    }
    Ok(())
}

// Appends the triangles of each corner with the one before it and the first.
fn push_fan(
    facets: &mut Vec<Facet>,
    place: u32,
    first: u32,
    second: u32,
    others: &[u32],
) -> Result<(), AllocError>
    requires { place + length others.now < 2 ^ 32 }
    ensures { OnOk result (facets.new.items ≡ facets.old.items ++ of_fan place first second others.now) }
{
    let mut place = place;
    let mut previous = second;
    let mut rest = others;
    while let Some((corner, after)) = rest.split_first() {
        push(facets, place, [previous, *corner, first])?;
        place += 1;
        previous = *corner;
        rest = after;
    }
    Ok(())
}

// Appends the triangles of a primitive with these corners. The first has this place, and each other
// one the next.
pub(crate) fn push_triangles(
    facets: &mut Vec<Facet>,
    topology: Topology,
    place: u32,
    corners: &[u32],
) -> Result<(), AllocError>
    requires { place + length corners.now < 2 ^ 32 }
    ensures { OnOk result (facets.new.items ≡ facets.old.items ++ triangles_of topology place corners.now) }
{
    match topology {
        Topology::Triangles => push_list(facets, place, corners),
        Topology::Strip => match corners {
            [a, b, others @ ..] => push_strip(facets, place, *a, *b, others),
            _ => Ok(()),
        },
        Topology::Fan => match corners {
            [a, b, others @ ..] => push_fan(facets, place, *a, *b, others),
            _ => Ok(()),
        },
    }
}
