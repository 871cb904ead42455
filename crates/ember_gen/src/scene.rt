// The scene of many boxes.
ghost use Rattle.std.specs.Prelude.{◌≡◌, ◌≤◌, ◌++◌, [], if◌then◌else◌, not, IfOk, OnOk};
ghost use Rattle.ember_gen.specs.Limits.{most_demo_boxes};
ghost use Rattle.ember_gen.specs.Blocks.{triangles_of};
ghost use Rattle.ember_gen.specs.Scene.{is_even, evens, odds, mesh_of, scene_of};

use crate::block::{Block, next_block, push_block};
use crate::numbers::Numbers;
use ember_model::{OutOfMemory, Scene, Tri, Tris};
use std::alloc::Global;

// The triangles of the two meshes.
#[derive(Drop)]
struct Meshes {
    first: Vec<Tri>,
    second: Vec<Tri>,
}

impl Meshes {
    // Box i belongs to the first mesh if i is even, and otherwise to the second.
    fn push(&mut self, i: u32, block: &Block) -> Result<(), OutOfMemory>
        ensures first { OnOk result (self.new.first.items ≡ self.old.first.items ++
            (if is_even i then triangles_of 1 block.now else [])) }
        ensures second { OnOk result (self.new.second.items ≡ self.old.second.items ++ (if not (is_even i)
            then triangles_of 2 block.now else [])) }
    {
        if i % 2 == 0 {
            push_block(block, 1, &mut self.first)
        } else {
            push_block(block, 2, &mut self.second)
        }
    }
}

fn meshes_of(alloc: Global, n: u32) -> Result<Meshes, OutOfMemory>
    requires { n ≤ most_demo_boxes }
    ensures first { IfOk result (λ m. m.first.items ≡ mesh_of 1 (evens n)) }
    ensures second { IfOk result (λ m. m.second.items ≡ mesh_of 2 (odds n)) }
{
    let mut meshes = Meshes {
        first: Vec::with_capacity(alloc, 12 * n as usize)?,
        second: Vec::with_capacity(alloc, 6 * n as usize)?,
    };
    let mut numbers = Numbers::new();
    for i in 0..n {
        let block = next_block(&mut numbers);
        meshes.push(i, &block)?;
    }
    Ok(meshes)
}

/// The scene of `n` boxes. A linear congruential generator draws the least corner and the sides of
/// each: all coordinates are from -1792 to 2047. The boxes with even numbers, from 0, are mesh 1,
/// and those with odd numbers mesh 2.
pub fn scene_of(alloc: Global, n: u32) -> Result<Scene, OutOfMemory>
    requires { n ≤ most_demo_boxes }
    ensures tris { IfOk result (λ scene. scene.tris ≡ scene_of n) }
    ensures meshes { IfOk result (λ scene. scene.meshes ≡ 2) }
{
    let Meshes { first, second } = meshes_of(alloc, n)?;
    let mut tris = first;
    tris.extend_from_slice(second.as_slice())?;
    Ok(Scene::of(Tris::of(tris), 2))
}
