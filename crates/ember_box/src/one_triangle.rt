// Whether one triangle is near a box. Only tests call this.
ghost use Rattle.std.specs.Prelude.{◌≡◌, ◌<◌, length};
ghost use Rattle.ember_box.specs.Near.{is_near, tri_at};

use crate::aabb::aabb_of_cell;
use crate::cell::Cell;
use crate::nearness::is_near_at;
use ember_model::Scene;

/// Whether triangle `i` of the scene is near the box: its bounding box meets the closed box, and the
/// corners of the box aren't all strictly on one side of its support plane.
pub fn near(s: &Scene, c: &Cell, i: u32) -> bool
    requires { i < length s.now.tris }
    ensures { result ≡ is_near c.now (tri_at s.now.tris i) }
{
    is_near_at(s.tris.items(), &aabb_of_cell(c), i)
}
