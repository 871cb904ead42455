// Surfaces as text.
ghost use Rattle.std.specs.Prelude.{◌≡◌, ◌++◌, true, length, map, flat_map, decimal, OnOk, IfOk, MatchOption, All, false, ◌≤◌};
ghost use Rattle.std.specs.List.{list_all};
ghost use Rattle.mesh_number.specs.Number.Fractions.{is_below_limit};
ghost use Rattle.mesh_place.specs.Decimals.{exact_value};
ghost use Rattle.mesh_read.specs.Surface.Surfaces.{is_point_below};
ghost use Rattle.mesh_place.specs.Images.{transformed_point, transformed_points, transformed_content};
ghost use Rattle.mesh_write.specs.Text.Lines.{spaced, point_line, index_text, indices_line, listed_face};
ghost use Rattle.mesh_write.specs.Text.Texts.{off_header};
ghost use Rattle.mesh_shapes.specs.Texts.{most_places, units_of, point_in_units, HasFewPlaces, triangle_of, text_of, is_within, is_readable, IsTextOf};

use crate::decimals::{put_coordinate, put_whole};
use mesh_number::is_below_limit;
use mesh_place::{ExactDecimal, TransformedPoint, TransformedSurface};
use mesh_read::Facet;
use std::alloc::{AllocError, Global};

// Whether all coordinates of the point are below 10^15 in size.
fn is_below(point: &TransformedPoint) -> bool
    ensures { result ≡ is_point_below (transformed_point point.now) }
{
    is_below_limit(&point.x.number())
        && is_below_limit(&point.y.number())
        && is_below_limit(&point.z.number())
}

fn are_below(points: &[TransformedPoint]) -> bool
    ensures { result ≡ list_all is_point_below (transformed_points points.now) }
{
    for point in points {
        if !is_below(point) {
            return false;
        }
    }
    true
}

// Whether the corners of the triangle are three of so many points.
fn is_within(points: usize, facet: &Facet) -> bool
    ensures { result ≡ is_within points facet.now }
{
    let [a, b, c] = facet.corners;
    (a as usize) < points && (b as usize) < points && (c as usize) < points
}

fn are_within(points: usize, facets: &[Facet]) -> bool
    ensures { result ≡ list_all (is_within points) facets.now }
{
    for facet in facets {
        if !is_within(points, facet) {
            return false;
        }
    }
    true
}

// Whether readers take the text of the surface.
fn is_readable(surface: &TransformedSurface) -> bool
    ensures { result ≡ is_readable (transformed_content surface.now) }
{
    !surface.facets.is_empty()
        && are_within(surface.points.len(), &surface.facets)
        && are_below(&surface.points)
}

fn put_spaced(decimal: &ExactDecimal, out: &mut Vec<u8>) -> Result<(), AllocError>
    requires { is_below_limit (exact_value decimal.now) ≡ true }
    ensures text { OnOk result (out.new.items ≡ out.old.items ++ spaced most_places (units_of decimal.now)) }
    ensures places { OnOk result (decimal.now.places ≤ most_places) }
{
    out.extend_from_slice(b" ")?;
    put_coordinate(decimal, out)
}

// Appends the line of a point.
#[tactic(auto, unfolding(mesh_write::specs::Text::Lines::point_line))]
fn put_point(point: &TransformedPoint, out: &mut Vec<u8>) -> Result<(), AllocError>
    requires { is_point_below (transformed_point point.now) ≡ true }
    ensures text { OnOk result (out.new.items ≡ out.old.items ++ point_line most_places (point_in_units point.now)) }
    ensures places { OnOk result (HasFewPlaces point.now) }
{
    put_coordinate(&point.x, out)?;
    put_spaced(&point.y, out)?;
    put_spaced(&point.z, out)?;
    out.extend_from_slice(b"\n")
}

fn put_points(points: &[TransformedPoint], out: &mut Vec<u8>) -> Result<(), AllocError>
    requires { list_all is_point_below (transformed_points points.now) ≡ true }
    ensures text { OnOk result (out.new.items ≡
        out.old.items ++ flat_map (point_line most_places) (map point_in_units points.now)) }
    ensures places { OnOk result (All HasFewPlaces points.now) }
{
    for point in points {
        put_point(point, out)?;
    }
    Ok(())
}

fn put_index(index: u32, out: &mut Vec<u8>) -> Result<(), AllocError>
    ensures { OnOk result (out.new.items ≡ out.old.items ++ index_text index) }
{
    out.extend_from_slice(b" ")?;
    put_whole(u64::from(index), out)
}

// Appends the line of a triangle: the number of its corners, and their indices.
#[tactic(auto, unfolding(mesh_write::specs::Text::Lines::listed_face, mesh_write::specs::Text::Lines::indices_line))]
fn put_facet(facet: &Facet, out: &mut Vec<u8>) -> Result<(), AllocError>
    ensures { OnOk result (out.new.items ≡ out.old.items ++ listed_face (triangle_of facet.now)) }
{
    let [a, b, c] = facet.corners;
    out.extend_from_slice(b"3")?;
    put_index(a, out)?;
    put_index(b, out)?;
    put_index(c, out)?;
    out.extend_from_slice(b"\n")
}

fn put_facets(facets: &[Facet], out: &mut Vec<u8>) -> Result<(), AllocError>
    ensures { OnOk result (out.new.items ≡
        out.old.items ++ flat_map listed_face (map triangle_of facets.now)) }
{
    for facet in facets {
        put_facet(facet, out)?;
    }
    Ok(())
}

// Appends the keyword and the numbers of points, triangles and edges. Readers pass over the last one,
// which is left 0.
#[tactic(auto, unfolding(mesh_write::specs::Text::Texts::off_header))]
fn put_header(points: usize, facets: usize, out: &mut Vec<u8>) -> Result<(), AllocError>
    ensures { OnOk result (out.new.items ≡ out.old.items ++ off_header points facets) }
{
    out.extend_from_slice(b"OFF\n")?;
    put_whole(points as u64, out)?;
    out.extend_from_slice(b" ")?;
    put_whole(facets as u64, out)?;
    out.extend_from_slice(b" 0\n")
}

// The text of a surface that has one.
fn text_of(alloc: Global, surface: &TransformedSurface) -> Result<Vec<u8>, AllocError>
    requires { is_readable (transformed_content surface.now) ≡ true }
    ensures text { IfOk result (λ text. text.items ≡ text_of surface.now) }
    ensures places { OnOk result (All HasFewPlaces surface.now.points.items) }
{
    let mut text = Vec::new(alloc);
    put_header(surface.points.len(), surface.facets.len(), &mut text)?;
    put_points(&surface.points, &mut text)?;
    put_facets(&surface.facets, &mut text)?;
    Ok(text)
}

/// The OFF file of a surface, with all digits of its coordinates; none if the surface has no triangles,
/// a corner that is no point, or a coordinate of 10^15 or more in size, since readers refuse these. The
/// one error is out-of-memory.
pub fn surface_text(
    alloc: Global,
    surface: &TransformedSurface,
) -> Result<Option<Vec<u8>>, AllocError>
    ensures { IfOk result (λ text. MatchOption text (is_readable (transformed_content surface.now) ≡ false)
        (λ text. IsTextOf (transformed_content surface.now) text.items)) }
{
    if !is_readable(surface) {
        return Ok(None);
    }
    let text = text_of(alloc, surface)?;
    Ok(Some(text))
}
