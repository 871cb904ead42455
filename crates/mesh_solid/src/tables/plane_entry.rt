// Planes as entries of a table.
ghost use Rattle.std.specs.Prelude.{◌≡◌, map, IfOk};
ghost use Rattle.mesh_solid.specs.Tables.Numberings.{plane_of, entry_of};

use ember_model::{OutOfMemory, Plane};
use std::alloc::Global;

/// The numbers of a plane, by which it is found.
#[derive(Clone, Copy, PartialEq, Eq, Hash)]
pub struct PlaneEntry {
    pub a: i64,
    pub b: i64,
    pub c: i64,
    pub d: i64,
}

/// The table's entry for the plane: its four numbers.
pub fn entry_of(p: &Plane) -> PlaneEntry
    ensures { result ≡ entry_of p.now }
{
    PlaneEntry {
        a: p.a,
        b: p.b,
        c: p.c,
        d: p.d,
    }
}

// The plane with these numbers.
fn plane_of(entry: &PlaneEntry) -> Plane
    ensures { result ≡ plane_of entry.now }
{
    Plane {
        a: entry.a,
        b: entry.b,
        c: entry.c,
        d: entry.d,
    }
}

/// The planes with these numbers, in order.
pub fn planes_of(alloc: Global, entries: &[PlaneEntry]) -> Result<Vec<Plane>, OutOfMemory>
    ensures { IfOk result (λ planes. planes.items ≡ map plane_of entries.now) }
{
    let mut planes = Vec::with_capacity(alloc, entries.len())?;
    for entry in entries {
        planes.push(plane_of(entry))?;
    }
    Ok(planes)
}
