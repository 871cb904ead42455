// The triangles of a scene in an order by plane and place.
ghost use Rattle.std.specs.Prelude.{◌≡◌, ◌≤◌, ◌<◌, ◌^◌, length, All, IfOk};
ghost use Rattle.ember_model.specs.Limits.{most_triangles};
ghost use Rattle.ember_model.specs.Planes.{support_of};
ghost use Rattle.ember_model.specs.Valid.{IsValidCorner, IsValidTri};
ghost use Rattle.mesh_sources.specs.Marks.{HasMark};
ghost use Rattle.mesh_sources.specs.Nodes.{IsItem, AreItems};

use crate::mark::mark_of;
use ember_model::{OutOfMemory, Tri, support_of};
use std::alloc::Global;

/// A triangle of the scene with its number, the mark of its plane and a number for its place: near
/// ones mostly have near places.
#[derive(Clone, Copy)]
pub struct Item {
    pub number: u32,
    pub tri: Tri,
    pub mark: i64,
    pub place: u64,
}

// The lowest 16 bits with two zeros before each.
fn spread(x: u64) -> u64 {
    let far = (x & 0xffff | x << 32) & 0x001f_0000_0000_ffff;
    let wide = (far | far << 16) & 0x001f_0000_ff00_00ff;
    let near = (wide | wide << 8) & 0x100f_00f0_0f00_f00f;
    let pairs = (near | near << 4) & 0x10c3_0c30_c30c_30c3;
    (pairs | pairs << 2) & 0x1249_2492_4924_9249
}

// Three coordinates of corners, added and moved to numbers that aren't negative.
fn sum_of(a: i32, b: i32, c: i32) -> u64 {
    (a as i64 + b as i64 + c as i64 + 8192).unsigned_abs()
}

// The bits of the three coordinates of the triangle's middle in turn. For the speed alone.
fn place_of(t: &Tri) -> u64 {
    let x = spread(sum_of(t.a.x, t.b.x, t.c.x));
    let y = spread(sum_of(t.a.y, t.b.y, t.c.y));
    let z = spread(sum_of(t.a.z, t.b.z, t.c.z));
    x | y << 1 | z << 2
}

fn item_of(number: u32, tri: &Tri) -> Item
    requires { IsValidTri tri.now }
    ensures number { result.number ≡ number }
    ensures tri { result.tri ≡ tri.now }
    ensures mark { HasMark (support_of tri.now) result.mark }
{
    Item {
        number,
        tri: *tri,
        mark: mark_of(&support_of(tri)),
        place: place_of(tri),
    }
}

fn items_in_order(alloc: Global, scene: &[Tri]) -> Result<Vec<Item>, OutOfMemory>
    requires few { length scene.now ≤ most_triangles }
    requires valid { All IsValidTri scene.now }
    ensures { IfOk result (λ items. AreItems scene.now (length scene.now) items.items) }
{
    let mut items = Vec::with_capacity(alloc, scene.len())?;
    for (i, t) in scene.iter().enumerate() {
        items.push(item_of(i as u32, t))?;
    }
    Ok(items)
}

/// The triangles of the scene, those of one plane together, and near ones mostly together.
pub fn items_of(alloc: Global, scene: &[Tri]) -> Result<Vec<Item>, OutOfMemory>
    requires few { length scene.now ≤ most_triangles }
    requires valid { All IsValidTri scene.now }
    ensures { IfOk result (λ items. AreItems scene.now (length scene.now) items.items) }
{
    let mut items = items_in_order(alloc, scene)?;
    items.sort_unstable_by_key(|item| (item.mark, item.place));
    Ok(items)
}
