// Planes across an axis whose entry along it is 1 or -1.
ghost use Rattle.std.specs.Prelude.{◌≡◌, ◌+◌, IfSome};
ghost use Rattle.ember_algebra.specs.Size.{Small};
ghost use Rattle.ember_poly.specs.Levels.{FacesAt, IsLevel};

use ember_model::{Axis, Plane};
use ember_width::Width;

// A plane across an axis: its points have the coordinate `at` along it. Its front points up the
// axis, or down.
#[derive(Clone, Copy)]
pub struct Level {
    pub axis: Axis,
    pub at: i64,
    pub is_up: bool,
}

// The level with the entry `n` along the axis and the constant `d`, if `n` is 1 or -1 and the root
// reaches to it.
fn level_along<W: Width>(axis: Axis, n: i64, d: i64) -> Option<Level>
    ensures level { IfSome result (λ l. (l.axis ≡ axis) × FacesAt l.is_up l.at n d) }
    ensures small { IfSome result (λ l. Small (W.corner + 1) l.at) }
{
    if !W::is_in_root(d) {
        None
    } else if n == 1 {
        Some(Level {
            axis,
            at: d,
            is_up: true,
        })
    } else if n == -1 {
        Some(Level {
            axis,
            at: -d,
            is_up: false,
        })
    } else {
        None
    }
}

/// The plane as a level. None unless the plane lies across an axis, its normal's entry along the
/// axis is 1 or -1, and the root reaches to it.
pub fn level_of<W: Width>(p: &Plane) -> Option<Level>
    ensures level { IfSome result (λ l. IsLevel l.axis l.at l.is_up p.now) }
    ensures small { IfSome result (λ l. Small (W.corner + 1) l.at) }
{
    if p.b == 0 && p.c == 0 {
        level_along::<W>(Axis::X, p.a, p.d)
    } else if p.a == 0 && p.c == 0 {
        level_along::<W>(Axis::Y, p.b, p.d)
    } else if p.a == 0 && p.b == 0 {
        level_along::<W>(Axis::Z, p.c, p.d)
    } else {
        None
    }
}
