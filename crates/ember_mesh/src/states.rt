// The states of a file's triangles: at most 262,144 of them, and then closed too.
ghost use Rattle.std.specs.Prelude.{◌≡◌, ◌≤◌, None, length, All, IfOk, IfErr, OnOk};
ghost use Rattle.ember_model.specs.Limits.{most_triangles};
ghost use Rattle.ember_model.specs.Valid.{IsValidTri};
ghost use Rattle.ember_model.specs.Meshes.{IsBalanced};
ghost use Rattle.ember_balance.specs.Loose.{loose_of};
ghost use Rattle.ember_mesh.specs.Faults.{IsMeshFault};

use crate::fault::MeshFault;
use ember_balance::balance;
use ember_model::{Lines, Soup, Tris};
use std::alloc::Global;
use std::marker::Model;

/// The triangles of a file, at most 262,144 of them, and for each the number of the line of its
/// face. They needn't be closed: [`balanced`] tests that.
#[derive(Drop)]
pub struct Solid {
    pub tris: Tris,
    pub lines: Lines,
    ghost paired: { length tris ≡ length lines },
    ghost valid: { All IsValidTri tris },
    ghost few: { length tris ≤ 262144 },
}

/// The triangles of a file that are closed: each directed edge occurs as often as its reverse.
#[derive(Drop)]
pub struct Closed {
    pub tris: Tris,
    pub lines: Lines,
    ghost paired: { length tris ≡ length lines },
    ghost valid: { All IsValidTri tris },
    ghost few: { length tris ≤ 262144 },
    ghost balanced: { IsBalanced tris },
}

/// A vector of closed meshes, which contracts see as a list.
#[derive(Drop)]
pub struct Parts {
    parts: Vec<Closed>,
}

impl Model for Parts {
    ghost use Rattle.std.specs.Prelude.{List};
    ghost use Rattle.ember_mesh.specs.declared.states.Closed.{Closed};

    ghost Value = { List Closed };

    ghost view = { λ s. s.parts.items };
}

impl Parts {
    /// The list of these meshes.
    pub fn of(parts: Vec<Closed>) -> Parts
        ensures { result ≡ parts.items }
    {
        Parts { parts }
    }

    /// The meshes in order.
    pub fn items(&self) -> &[Closed]
        ensures { result.now ≡ self.now }
    {
        &self.parts
    }

    /// The meshes as a vector.
    pub fn into_vec(self) -> Vec<Closed>
        ensures { result.items ≡ self }
    {
        self.parts
    }
}

/// The same triangles and lines, of a file with at most 262,144 triangles. It tests nothing: the
/// caller has counted them, and [`balanced`] tests whether they are closed.
pub fn check(soup: Soup) -> Solid
    requires { length soup.tris ≤ most_triangles }
    ensures tris { result.tris ≡ soup.tris }
    ensures lines { result.lines ≡ soup.lines }
{
    Solid {
        tris: soup.tris,
        lines: soup.lines,
    }
}

/// The same triangles and lines, if the triangles are closed. Otherwise the fault names the least
/// edge that occurs more often than its reverse. An error hands the argument back unchanged.
pub fn balanced(alloc: Global, solid: Solid) -> Result<Closed, (Solid, MeshFault)>
    ensures tris { IfOk result (λ closed. closed.tris ≡ solid.tris) }
    ensures lines { IfOk result (λ closed. closed.lines ≡ solid.lines) }
    ensures closed { OnOk result (loose_of solid.tris ≡ None) }
    ensures fault { IfErr result (λ e. IsMeshFault solid.tris e.1) }
    ensures unchanged { IfErr result (λ e. e.0 ≡ solid) }
{
    match balance(alloc, solid.tris.items()) {
        Ok(None) => Ok(Closed {
            tris: solid.tris,
            lines: solid.lines,
        }),
        Ok(Some(loose)) => Err((solid, MeshFault::Unbalanced(loose))),
        Err(_) => Err((solid, MeshFault::OutOfMemory)),
    }
}
