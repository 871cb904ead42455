// On which sides of a plane a ring lies.
ghost use Rattle.std.specs.Prelude.{◌≡◌, ◌++◌, ◌∷◌, [], List};
ghost use Rattle.ember_algebra.specs.Sign.{sgn};
ghost use Rattle.ember_model.specs.Planes.{value_at};
ghost use Rattle.ember_poly.specs.Cuts.{IsReach};
ghost use Rattle.ember_poly.specs.Passages.{AreSigns};

use crate::reach_and_cut::Reach;
use crate::ring::Ring;
use ember_algebra::Sign;
use ember_model::Plane;
use ember_width::Width;

// The reach of corners that have the reach `seen` and of one more, on the side `at`.
fn with_corner<W: Width>(seen: Reach, at: Sign) -> Reach
    ensures { (p : Plane) (ms : List _) (m : _) → AreSigns W.spot p ms seen → at ≡ sgn (value_at p (W.spot m)) →
        AreSigns W.spot p (ms ++ m ∷ []) result }
{
    match at {
        Sign::Zero => seen,
        Sign::Neg => match seen {
            Reach::Below => Reach::Below,
            Reach::Above => Reach::Both,
            Reach::On => Reach::Below,
            Reach::Both => Reach::Both,
        },
        Sign::Pos => match seen {
            Reach::Below => Reach::Both,
            Reach::Above => Reach::Above,
            Reach::On => Reach::Above,
            Reach::Both => Reach::Both,
        },
    }
}

// On which sides of the plane the corners are.
fn reach_of_corners<W: Width>(p: &Plane, corners: &[W::Point]) -> Reach
    requires { W.IsPlane p.now }
    ensures { AreSigns W.spot p.now corners.now result }
{
    let mut seen = Reach::On;
    for m in corners {
        match with_corner::<W>(seen, W::side(p, m)) {
            Reach::Both => {
                return Reach::Both;
            }
            other => {
                seen = other;
            }
        }
    }
    seen
}

/// On which sides of the plane the inside points of the ring lie.
pub fn reach<W: Width>(r: &Ring<W>, p: &Plane) -> Reach
    requires { W.IsPlane p.now }
    ensures { IsReach r.now p.now result }
{
    reach_of_corners::<W>(p, r.boundary.corners.as_slice())
}
