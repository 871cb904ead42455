// How many edges of triangles are loose. ember_balance has numbers of edges too, but keeps them to
// itself.
ghost use Rattle.std.specs.Prelude.{◌≡◌, ◌<◌, ◌≤◌, ◌+◌, ◌*◌, ◌^◌, ℕ, [], ◌∷◌, ◌++◌, length, map, drop, slice_index, All, IfOk, OnOk};
ghost use Rattle.std.specs.List.Sorted.{IsNonDecreasing};
ghost use Rattle.ember_model.specs.Limits.{broad_limit, most_triangles};
ghost use Rattle.ember_model.specs.Within.{IsCornerWithin, IsTriWithin};
ghost use Rattle.ember_model.specs.Meshes.{Edge, reversed, edges_in};
ghost use Rattle.ember_balance.specs.Counts.{count};
ghost use Rattle.ember_balance.specs.Numbers.{corner_number, edge_number};
ghost use Rattle.mesh_scene.specs.Scene.LooseEdges.{loose_count, number_excess, AreSorted};

use ember_model::{Corner, OutOfMemory, Tri};
use std::alloc::Global;

// The number of a corner, of 60 bits: 20 for each coordinate.
fn corner_number(c: &Corner) -> u64
    requires { IsCornerWithin broad_limit c.now }
    ensures value { result ≡ corner_number c.now }
    ensures small { result < 2 ^ 60 }
{
    ((c.x + 524_287) as u64 * 1_048_576 + (c.y + 524_287) as u64) * 1_048_576
        + (c.z + 524_287) as u64
}

// The number of the edge from one corner to another, of 120 bits.
fn edge_number(from: &Corner, to: &Corner) -> u128
    requires from { IsCornerWithin broad_limit from.now }
    requires to { IsCornerWithin broad_limit to.now }
    ensures { result ≡ edge_number (record { from = from.now; to = to.now }) }
{
    u128::from(corner_number(from)) * 1_152_921_504_606_846_976 + u128::from(corner_number(to))
}

fn push_edges(numbers: &mut Vec<u128>, t: &Tri) -> Result<(), OutOfMemory>
    requires { IsTriWithin broad_limit t.now }
    ensures { OnOk result (numbers.new.items ≡ numbers.old.items ++ map edge_number (edges_in (t.now ∷ []))) }
{
    numbers.push(edge_number(&t.a, &t.b))?;
    numbers.push(edge_number(&t.b, &t.c))?;
    numbers.push(edge_number(&t.c, &t.a))?;
    Ok(())
}

fn push_reverses(numbers: &mut Vec<u128>, t: &Tri) -> Result<(), OutOfMemory>
    requires { IsTriWithin broad_limit t.now }
    ensures { OnOk result (numbers.new.items ≡ numbers.old.items ++
        map edge_number (map reversed (edges_in (t.now ∷ [])))) }
{
    numbers.push(edge_number(&t.b, &t.a))?;
    numbers.push(edge_number(&t.c, &t.b))?;
    numbers.push(edge_number(&t.a, &t.c))?;
    Ok(())
}

// The numbers of the triangles' edges, in order.
fn edge_numbers(alloc: Global, tris: &[Tri]) -> Result<Vec<u128>, OutOfMemory>
    requires within { All (IsTriWithin broad_limit) tris.now }
    requires few { length tris.now ≤ most_triangles }
    ensures { IfOk result (λ ns. AreSorted (map edge_number (edges_in tris.now)) ns.items) }
{
    let mut numbers = Vec::with_capacity(alloc, 3 * tris.len())?;
    for t in tris {
        push_edges(&mut numbers, t)?;
    }
    numbers.sort_unstable();
    Ok(numbers)
}

// The numbers of their reverses, in order.
fn reverse_numbers(alloc: Global, tris: &[Tri]) -> Result<Vec<u128>, OutOfMemory>
    requires within { All (IsTriWithin broad_limit) tris.now }
    requires few { length tris.now ≤ most_triangles }
    ensures { IfOk result (λ ns. AreSorted (map edge_number (map reversed (edges_in tris.now))) ns.items) }
{
    let mut numbers = Vec::with_capacity(alloc, 3 * tris.len())?;
    for t in tris {
        push_reverses(&mut numbers, t)?;
    }
    numbers.sort_unstable();
    Ok(numbers)
}

// The index of the first number from `start` on that isn't below this one, or the length.
fn first_from(numbers: &[u128], start: usize, number: u128) -> usize
    requires start { start ≤ length numbers.now }
    ensures bound { result ≤ length numbers.now }
    ensures reached { result < length numbers.now → number ≤ slice_index numbers.now result }
    ensures counts { (n : ℕ) → number ≤ n → count n (drop result numbers.now) ≡ count n (drop start numbers.now) }
{
    let mut index = start;
    while index < numbers.len() {
        if number <= numbers[index] {
            return index;
        }
        index += 1;
    }
    index
}

// By how much numbers occur more often in the first list than in the second. Both lists are
// sorted.
fn excess(there: &[u128], back: &[u128]) -> u64
    requires there { IsNonDecreasing there.now }
    requires back { IsNonDecreasing back.now }
    ensures { result ≡ number_excess there.now back.now }
{
    let mut found = 0;
    let mut next = 0;
    for number in there {
        next = first_from(back, next, *number);
        if next < back.len() && back[next] == *number {
            next += 1;
        } else {
            found += 1;
        }
    }
    found
}

/// The number of loose edges: by how much directed edges occur more often than their reverse, all
/// edges together.
pub fn count_loose(alloc: Global, tris: &[Tri]) -> Result<u64, OutOfMemory>
    requires within { All (IsTriWithin broad_limit) tris.now }
    requires few { length tris.now ≤ most_triangles }
    ensures { IfOk result (λ n. n ≡ loose_count tris.now) }
{
    let there = edge_numbers(alloc, tris)?;
    let back = reverse_numbers(alloc, tris)?;
    Ok(excess(&there, &back))
}
