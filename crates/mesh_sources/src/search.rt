// The search for the places of a facet.
ghost use Rattle.std.specs.Prelude.{◌≡◌, ◌+◌, ℕ, List, All, Some, slice_get};
ghost use Rattle.ember_model.specs.Valid.{IsValidPlane, IsValidTri};
ghost use Rattle.mesh_sources.specs.declared.nodes.Node.{Node};
ghost use Rattle.mesh_sources.specs.Nodes.{first_of, AreBoundsOver, AreNodes, IsFoundFrom};
ghost use Rattle.mesh_sources.specs.Places.{IsProper};

use crate::facet::Facet;
use crate::items::Item;
use crate::nodes::{Bounds, Node};
use crate::place::{is_place, is_turned};
use crate::source::Source;

// The first of the two, and that there are several if their numbers differ.
fn first_of(found: &Source, next: &Source) -> Source
    ensures { result ≡ first_of found.now next.now }
{
    if next.triangle < found.triangle {
        Source {
            several: true,
            ..*next
        }
    } else if found.triangle < next.triangle {
        Source {
            several: true,
            ..*found
        }
    } else {
        *found
    }
}

// What is found with one more item.
fn found_with(found: Option<Source>, facet: &Facet, bounds: &Bounds, item: &Item) -> Option<Source>
    requires proper { IsProper facet.now }
    requires plane { IsValidPlane facet.now.plane }
    requires tri { IsValidTri item.now.tri }
    requires bounds { AreBoundsOver bounds.now facet.now }
    ensures { (ns : List Node) (i : ℕ) (n : Node) → slice_get ns i ≡ Some n → n.item ≡ item.now →
        IsFoundFrom ns (i + 1) facet.now found → IsFoundFrom ns i facet.now result }
{
    if !is_place(facet, &bounds.around, &item.tri) {
        return found;
    }
    let next = Source {
        triangle: item.number,
        turned: is_turned(&facet.plane, &item.tri),
        several: false,
    };
    match found {
        None => Some(next),
        Some(source) => Some(first_of(&source, &next)),
    }
}

/// The first place of a facet among the items of the nodes, by number.
pub fn first_place(nodes: &[Node], facet: &Facet, bounds: &Bounds) -> Option<Source>
    requires nodes { AreNodes nodes.now }
    requires valid { All (λ n. IsValidTri n.item.tri) nodes.now }
    requires proper { IsProper facet.now }
    requires plane { IsValidPlane facet.now.plane }
    requires bounds { AreBoundsOver bounds.now facet.now }
    ensures { IsFoundFrom nodes.now 0 facet.now result }
{
    let mut found = None;
    let mut end = nodes.len();
    while 0 < end {
        let node = &nodes[end - 1];
        if node.bounds.meets(bounds) {
            found = found_with(found, facet, bounds, &node.item);
            end -= 1;
        } else {
            end = node.start;
        }
    }
    found
}
