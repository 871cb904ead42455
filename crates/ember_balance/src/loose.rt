// Edges that occur more often than their reverse.
ghost use Rattle.std.specs.Prelude.{◌≡◌, ◌<◌, ◌≤◌, ◌^◌, [], ◌∷◌, ◌++◌, length, map, All, IfOk, OnOk, IsTrue, MatchOption};
ghost use Rattle.ember_model.specs.Limits.{broad_limit, most_edges, most_triangles};
ghost use Rattle.ember_model.specs.Meshes.{Edge, reversed, edges_in, IsBalanced};
ghost use Rattle.ember_model.specs.Within.{IsCornerWithin, IsTriWithin};
ghost use Rattle.ember_balance.specs.Counts.{count};
ghost use Rattle.ember_balance.specs.Numbers.{edge_number, two_way_number, IsBroadEdge, AreNumbers};
ghost use Rattle.ember_balance.specs.Loose.{edge_of, loose_of, IsLeastLoose};

use crate::numbers::{edge_number, ends_of, two_way_number};
use crate::surplus::{count, first_surplus};
use crate::two_way::are_two_way;
use ember_model::{Corner, OutOfMemory, Tri};
use std::alloc::Global;

/// A directed edge. It occurs `there` times, and its reverse `back` times.
#[derive(Clone, Copy, Debug, PartialEq, Eq)]
pub struct Loose {
    pub from: Corner,
    pub to: Corner,
    pub there: u32,
    pub back: u32,
}

// The numbers of edges (`there`) and of their reverses (`back`).
#[derive(Drop)]
struct Numbers {
    there: Vec<u128>,
    back: Vec<u128>,
}

impl Numbers {
    fn push(&mut self, from: &Corner, to: &Corner) -> Result<(), OutOfMemory>
        requires from { IsCornerWithin broad_limit from.now }
        requires to { IsCornerWithin broad_limit to.now }
        ensures there { OnOk result (self.new.there.items ≡ self.old.there.items ++
            edge_number (record { from = from.now; to = to.now }) ∷ []) }
        ensures back { OnOk result (self.new.back.items ≡ self.old.back.items ++
            edge_number (record { from = to.now; to = from.now }) ∷ []) }
    {
        self.there.push(edge_number(from, to))?;
        self.back.push(edge_number(to, from))?;
        Ok(())
    }

    fn push_edges(&mut self, t: &Tri) -> Result<(), OutOfMemory>
        requires { IsTriWithin broad_limit t.now }
        ensures there { OnOk result (self.new.there.items ≡ self.old.there.items ++
            map edge_number (edges_in (t.now ∷ []))) }
        ensures back { OnOk result (self.new.back.items ≡ self.old.back.items ++
            map edge_number (map reversed (edges_in (t.now ∷ [])))) }
    {
        self.push(&t.a, &t.b)?;
        self.push(&t.b, &t.c)?;
        self.push(&t.c, &t.a)
    }
}

fn numbers_of(alloc: Global, tris: &[Tri]) -> Result<Numbers, OutOfMemory>
    requires within { All (IsTriWithin broad_limit) tris.now }
    requires few { length tris.now ≤ most_triangles }
    ensures there { IfOk result (λ n. n.there.items ≡ map edge_number (edges_in tris.now)) }
    ensures back { IfOk result (λ n. n.back.items ≡ map edge_number (map reversed (edges_in tris.now))) }
{
    let edges = 3 * tris.len();
    let mut numbers = Numbers {
        there: Vec::with_capacity(alloc, edges)?,
        back: Vec::with_capacity(alloc, edges)?,
    };
    for t in tris {
        numbers.push_edges(t)?;
    }
    Ok(numbers)
}

fn sorted_numbers(alloc: Global, tris: &[Tri]) -> Result<Numbers, OutOfMemory>
    requires within { All (IsTriWithin broad_limit) tris.now }
    requires few { length tris.now ≤ most_triangles }
    ensures { IfOk result (λ n. AreNumbers tris.now n.there.items n.back.items) }
{
    let mut numbers = numbers_of(alloc, tris)?;
    numbers.there.sort_unstable();
    numbers.back.sort_unstable();
    Ok(numbers)
}

// The edge with this number, and how often it and its reverse occur.
fn loose_with(number: u128, numbers: &Numbers) -> Loose
    requires number { number < 2 ^ 120 }
    requires there { length numbers.now.there.items ≤ most_edges }
    requires back { length numbers.now.back.items ≤ most_edges }
    ensures edge { (e : Edge) → IsBroadEdge e → edge_number e ≡ number → edge_of result ≡ e }
    ensures there { result.there ≡ count number numbers.now.there.items }
    ensures back { result.back ≡ count number numbers.now.back.items }
{
    let (from, to) = ends_of(number);
    Loose {
        from,
        to,
        there: count(number, &numbers.there),
        back: count(number, &numbers.back),
    }
}

// The two-way numbers of the triangles' edges.
fn push_two_way(numbers: &mut Vec<u128>, t: &Tri) -> Result<(), OutOfMemory>
    requires { IsTriWithin broad_limit t.now }
    ensures { OnOk result (numbers.new.items ≡ numbers.old.items ++ map two_way_number (edges_in (t.now ∷ []))) }
{
    numbers.push(two_way_number(&t.a, &t.b))?;
    numbers.push(two_way_number(&t.b, &t.c))?;
    numbers.push(two_way_number(&t.c, &t.a))?;
    Ok(())
}

fn two_way_numbers(alloc: Global, tris: &[Tri]) -> Result<Vec<u128>, OutOfMemory>
    requires within { All (IsTriWithin broad_limit) tris.now }
    requires few { length tris.now ≤ most_triangles }
    ensures { IfOk result (λ numbers. numbers.items ≡ map two_way_number (edges_in tris.now)) }
{
    let mut numbers = Vec::with_capacity(alloc, 3 * tris.len())?;
    for t in tris {
        push_two_way(&mut numbers, t)?;
    }
    Ok(numbers)
}

// `true` only if the triangles are balanced. The quick test: it sorts one list, and `least_loose`
// sorts two. Its `false` would be right too, since the list is sorted, but that isn't proved:
// `least_loose` decides.
fn are_balanced(alloc: Global, tris: &[Tri]) -> Result<bool, OutOfMemory>
    requires within { All (IsTriWithin broad_limit) tris.now }
    requires few { length tris.now ≤ most_triangles }
    ensures { IfOk result (λ b. IsTrue b → IsBalanced tris.now) }
{
    let mut numbers = two_way_numbers(alloc, tris)?;
    numbers.sort_unstable();
    Ok(are_two_way(&numbers))
}

// The least loose edge, or `None` exactly if the triangles are balanced.
fn least_loose(alloc: Global, tris: &[Tri]) -> Result<Option<Loose>, OutOfMemory>
    requires within { All (IsTriWithin broad_limit) tris.now }
    requires few { length tris.now ≤ most_triangles }
    ensures value { IfOk result (λ found. found ≡ loose_of tris.now) }
    ensures meaning { IfOk result (λ found. MatchOption found (IsBalanced tris.now) (λ l. IsLeastLoose tris.now l)) }
{
    let numbers = sorted_numbers(alloc, tris)?;
    match first_surplus(&numbers.there, &numbers.back) {
        None => Ok(None),
        Some(number) => Ok(Some(loose_with(number, &numbers))),
    }
}

/// The least loose edge: of the edges that occur more often than their reverse, the least by x, y
/// and z of `from` and then of `to`. `None` exactly if the triangles are balanced: each directed
/// edge occurs as often as its reverse.
pub fn balance(alloc: Global, tris: &[Tri]) -> Result<Option<Loose>, OutOfMemory>
    requires within { All (IsTriWithin broad_limit) tris.now }
    requires few { length tris.now ≤ most_triangles }
    ensures value { IfOk result (λ found. found ≡ loose_of tris.now) }
    ensures meaning { IfOk result (λ found. MatchOption found (IsBalanced tris.now) (λ l. IsLeastLoose tris.now l)) }
{
    if are_balanced(alloc, tris)? {
        return Ok(None);
    }
    least_loose(alloc, tris)
}
