// Whether a region meets a triangle in its plane, as far as the triangle's corners decide it.
ghost use Rattle.std.specs.Prelude.{◌≡◌, ◌&&◌, All};
ghost use Rattle.ember_algebra.specs.Sign.{is_negative};
ghost use Rattle.ember_model.specs.Limits.{broad_limit};
ghost use Rattle.ember_model.specs.Within.{IsTriWithin};
ghost use Rattle.ember_width.specs.Broad.{IsBroadPlane};
ghost use Rattle.ember_leaf.specs.Contact.{IsContact};

use ember_model::{Plane, Tri};
use ember_width::{Heights, heights_of, is_behind};

/// What the corners of a triangle show of a region in its plane.
#[derive(Clone, Copy)]
pub enum Contact {
    /// Some edge of the region has no corner behind it: the two don't meet.
    Apart,
    /// A corner is behind all edges of the region, so inside it: they meet.
    Met,
    /// They show neither.
    Unknown,
}

// Which corners are behind all planes seen so far.
#[derive(Clone, Copy)]
struct Behind {
    a: bool,
    b: bool,
    c: bool,
}

impl Behind {
    // Those of the corners that are also behind the plane with these heights.
    fn and(&self, heights: &Heights) -> Behind
        ensures a { result.a ≡ self.now.a && is_negative heights.now.a }
        ensures b { result.b ≡ self.now.b && is_negative heights.now.b }
        ensures c { result.c ≡ self.now.c && is_negative heights.now.c }
    {
        Behind {
            a: self.a && is_behind(heights.a),
            b: self.b && is_behind(heights.b),
            c: self.c && is_behind(heights.c),
        }
    }
}

/// What the corners of the triangle show of a region in its plane. `edges` are the edge planes of
/// the region's outline.
pub fn contact_of(edges: &[Plane], t: &Tri) -> Contact
    requires edges { All IsBroadPlane edges.now }
    requires tri { IsTriWithin broad_limit t.now }
    ensures { IsContact edges.now t.now result }
{
    let mut behind = Behind {
        a: true,
        b: true,
        c: true,
    };
    for i in 0..edges.len() {
        let heights = heights_of(&edges[i], t);
        if heights.none_behind() {
            return Contact::Apart;
        }
        behind = behind.and(&heights);
    }
    if behind.a || (behind.b || behind.c) {
        Contact::Met
    } else {
        Contact::Unknown
    }
}
