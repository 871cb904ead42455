// Shapes as words.
ghost use Rattle.std.specs.Prelude.{◌≡◌, ◌^◌, option_map, pos, IfSome, MatchOption, MatchResult, None, Some, Ok, Err};
ghost use Rattle.mesh_number.specs.Number.Fractions.{floor_times};
ghost use Rattle.mesh_number.specs.Number.Values.{value_of};
ghost use Rattle.mesh_read.specs.Surface.Surfaces.{point_of};
ghost use Rattle.mesh_placing.specs.ShapeWords.{said_shape, is_plain, plain_said, trillionths, are_equal, is_above_nought};
ghost use Rattle.mesh_placing.specs.ShapeWords.{is_flat_between, first_number, first_point, last_point, corners_said, box_of};
ghost use Rattle.mesh_placing.specs.ShapeWords.{parts_of, parts_said, sides_said, cylinder_of, shape_said, shape_fault, first_shape_fault};

use crate::words::{TRILLIONTHS, behind_head, cut, is_coarse};
use ember_words::Text;
use mesh_number::{Number, floor_times, is_below_limit, number_below, read_decimal};
use mesh_read::Vertex;
use thiserror::Error;

/// A cylinder along z: the centre of its bottom, its radius, which is above 0, its height, which goes
/// down if it is below 0, and how many sides it has, from 3 to 4,096.
#[derive(Clone, Copy)]
pub struct Cylinder<'a> {
    pub centre: Vertex<'a>,
    pub radius: Number<'a>,
    pub height: Number<'a>,
    pub sides: u32,
}

/// A shape in the place of a file.
#[derive(Clone, Copy)]
pub enum Shape<'a> {
    /// The box between two opposite corners.
    Box(Vertex<'a>, Vertex<'a>),
    Cylinder(Cylinder<'a>),
}

/// Why a word that begins as a shape says none.
#[derive(Clone, Copy, Debug, PartialEq, Eq, Error)]
pub enum ShapeWordFault {
    /// Behind `box:` there aren't six numbers with commas between them. A number has at most twelve
    /// decimal places, and is below 10^15 in size.
    #[error("box: not X,Y,Z,X,Y,Z with at most 12 decimal places")]
    NoBox,
    /// Behind `cylinder:` there aren't five such numbers with commas behind them.
    #[error("cylinder: not X,Y,Z,RADIUS,HEIGHT,SIDES with at most 12 decimal places")]
    NoCylinder,
    /// The corners of the box have a coordinate in common.
    #[error("box: no volume")]
    Flat,
    /// The radius of the cylinder isn't above 0.
    #[error("cylinder: the radius is not above 0")]
    Radius,
    /// The height of the cylinder is 0.
    #[error("cylinder: the height is 0")]
    Height,
    /// The sides of the cylinder aren't a number from 3 to 4,096.
    #[error("cylinder: not 3 to 4096 sides")]
    Sides,
}

const MOST_SIDES: u32 = 4096;

// A number of a shape: it has at most twelve decimal places, and is below 10^15 in size.
fn plain_number(text: &[u8]) -> Option<Number<'_>>
    ensures { option_map value_of result ≡ plain_said text.now }
{
    let number = read_decimal(text)?;
    if is_coarse(&number) && is_below_limit(&number) {
        return Some(number);
    }
    None
}

// The first number, and what is behind the comma after it.
fn first_number(text: &[u8]) -> Option<(Number<'_>, &[u8])>
    ensures { option_map (λ part. (value_of part.0, part.1.now)) result ≡ first_number text.now }
{
    let (number, rest) = cut(text, b',');
    let number = plain_number(number)?;
    let rest = rest?;
    Some((number, rest))
}

// The first point, and what is behind the comma after it.
fn first_point(text: &[u8]) -> Option<(Vertex<'_>, &[u8])>
    ensures { option_map (λ part. (point_of part.0, part.1.now)) result ≡ first_point text.now }
{
    let (x, rest) = first_number(text)?;
    let (y, rest) = first_number(rest)?;
    let (z, rest) = first_number(rest)?;
    Some((Vertex { x, y, z }, rest))
}

// The point, with nothing behind it.
fn last_point(text: &[u8]) -> Option<Vertex<'_>>
    ensures { option_map point_of result ≡ last_point text.now }
{
    let (x, rest) = first_number(text)?;
    let (y, rest) = first_number(rest)?;
    let z = plain_number(rest)?;
    Some(Vertex { x, y, z })
}

// The trillionths of a number below 10^15 in size.
fn trillionths(number: &Number) -> Option<i128>
    ensures { result ≡ trillionths (value_of number.now) }
{
    floor_times(number, TRILLIONTHS)
}

// Whether two numbers are the same.
fn are_equal(a: Option<i128>, b: Option<i128>) -> bool
    ensures { result ≡ are_equal a b }
{
    match (a, b) {
        (Some(a), Some(b)) => a == b,
        _ => false,
    }
}

fn is_above_nought(a: Option<i128>) -> bool
    ensures { result ≡ is_above_nought a }
{
    match a {
        Some(a) => a > 0,
        None => false,
    }
}

// Whether two corners have a coordinate in common.
fn is_flat_between(a: &Vertex, b: &Vertex) -> bool
    ensures { result ≡ is_flat_between (point_of a.now) (point_of b.now) }
{
    are_equal(trillionths(&a.x), trillionths(&b.x))
        || are_equal(trillionths(&a.y), trillionths(&b.y))
        || are_equal(trillionths(&a.z), trillionths(&b.z))
}

// Two corners.
fn corners(text: &[u8]) -> Option<(Vertex<'_>, Vertex<'_>)>
    ensures { option_map (λ ends. (point_of ends.0, point_of ends.1)) result ≡ corners_said text.now }
{
    let (from, rest) = first_point(text)?;
    let to = last_point(rest)?;
    Some((from, to))
}

// The box between the corners that a text says.
fn read_box(text: &[u8]) -> Result<Shape<'_>, ShapeWordFault>
    ensures { MatchResult result (λ s. box_of (corners_said text.now) ≡ Ok (Some (said_shape s)))
        (λ e. box_of (corners_said text.now) ≡ Err e) }
{
    match corners(text) {
        None => Err(ShapeWordFault::NoBox),
        Some((from, to)) => {
            if is_flat_between(&from, &to) {
                return Err(ShapeWordFault::Flat);
            }
            Ok(Shape::Box(from, to))
        }
    }
}

// The parts of a cylinder; the sides are still a text.
#[derive(Clone, Copy)]
struct Parts<'a> {
    centre: Vertex<'a>,
    radius: Number<'a>,
    height: Number<'a>,
    sides: &'a [u8],
}

fn read_parts(text: &[u8]) -> Option<Parts<'_>>
    ensures { option_map parts_of result ≡ parts_said text.now }
{
    let (centre, rest) = first_point(text)?;
    let (radius, rest) = first_number(rest)?;
    let (height, sides) = first_number(rest)?;
    Some(Parts {
        centre,
        radius,
        height,
        sides,
    })
}

// A number from 3 to 4,096.
fn read_sides(text: &[u8]) -> Option<u32>
    ensures { result ≡ sides_said text.now }
{
    let sides = number_below(MOST_SIDES + 1, text)?;
    if sides < 3 {
        return None;
    }
    Some(sides)
}

// The cylinder that a text says.
fn read_cylinder(text: &[u8]) -> Result<Shape<'_>, ShapeWordFault>
    ensures { MatchResult result (λ s. cylinder_of (parts_said text.now) ≡ Ok (Some (said_shape s)))
        (λ e. cylinder_of (parts_said text.now) ≡ Err e) }
{
    let Some(parts) = read_parts(text) else {
        return Err(ShapeWordFault::NoCylinder);
    };
    if !is_above_nought(trillionths(&parts.radius)) {
        return Err(ShapeWordFault::Radius);
    }
    if are_equal(trillionths(&parts.height), Some(0)) {
        return Err(ShapeWordFault::Height);
    }
    match read_sides(parts.sides) {
        Some(sides) => Ok(Shape::Cylinder(Cylinder {
            centre: parts.centre,
            radius: parts.radius,
            height: parts.height,
            sides,
        })),
        None => Err(ShapeWordFault::Sides),
    }
}

/// The shape that a word says, or none if the word begins neither with `box:` nor with `cylinder:`. A
/// word that begins so and says no shape has a fault.
///
/// `box:X,Y,Z,X,Y,Z` is a box between two opposite corners, and `cylinder:X,Y,Z,RADIUS,HEIGHT,SIDES`
/// an upright cylinder with this centre of its bottom. A number is a decimal as in mesh files, with at
/// most twelve decimal places, and below 10^15 in size. Nothing is blank between them.
#[tactic(auto, unfolding(crate::specs::ShapeWords::shape_said))]
pub fn shape_of(word: &[u8]) -> Result<Option<Shape<'_>>, ShapeWordFault>
    ensures { MatchResult result (λ s. shape_said word.now ≡ Ok (option_map said_shape s))
        (λ e. shape_said word.now ≡ Err e) }
{
    if let Some(text) = behind_head(word, b"box:") {
        return match read_box(text) {
            Ok(shape) => Ok(Some(shape)),
            Err(fault) => Err(fault),
        };
    }
    if let Some(text) = behind_head(word, b"cylinder:") {
        return match read_cylinder(text) {
            Ok(shape) => Ok(Some(shape)),
            Err(fault) => Err(fault),
        };
    }
    Ok(None)
}

// Why the word says no shape though it begins as one.
fn shape_fault(word: &[u8]) -> Option<ShapeWordFault>
    ensures { result ≡ shape_fault (shape_said word.now) }
{
    match shape_of(word) {
        Ok(_) => None,
        Err(fault) => Some(fault),
    }
}

/// Why the first of the words that begins as a shape and says none doesn't.
pub fn first_shape_fault(words: &[Text]) -> Option<ShapeWordFault>
    ensures { result ≡ first_shape_fault words.now }
{
    for word in words {
        if let Some(fault) = shape_fault(word.as_str().as_bytes()) {
            return Some(fault);
        }
    }
    None
}
