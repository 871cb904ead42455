// Triangles, and the triangles of a file.
ghost use Rattle.std.specs.Prelude.{◌≡◌, length, All};
ghost use Rattle.ember_model.specs.Valid.{IsValidTri};

use crate::point::Corner;
use std::marker::Model;

/// A triangle of a mesh. Seen from its front, the corners go round counter-clockwise. Meshes are
/// numbered from 1.
#[derive(Clone, Copy, Debug, PartialEq, Eq)]
pub struct Tri {
    pub a: Corner,
    pub b: Corner,
    pub c: Corner,
    pub mesh: u32,
}

/// A vector of triangles, which contracts see as a list.
#[derive(Drop)]
pub struct Tris {
    tris: Vec<Tri>,
}

impl Model for Tris {
    ghost use Rattle.std.specs.Prelude.{List};
    ghost use Rattle.ember_model.specs.declared.tri.Tri.{Tri};

    ghost Value = { List Tri };

    ghost view = { λ s. s.tris.items };
}

impl Tris {
    /// The list of these triangles.
    pub fn of(tris: Vec<Tri>) -> Tris
        ensures { result ≡ tris.items }
    {
        Tris { tris }
    }

    /// The triangles in order.
    pub fn items(&self) -> &[Tri]
        ensures { result.now ≡ self.now }
    {
        &self.tris
    }

    /// The triangles as a vector.
    pub fn into_vec(self) -> Vec<Tri>
        ensures { result.items ≡ self }
    {
        self.tris
    }
}

/// A vector of line numbers, from 1, which contracts see as a list.
#[derive(Drop)]
pub struct Lines {
    lines: Vec<u32>,
}

impl Model for Lines {
    ghost use Rattle.std.specs.Prelude.{List, ℕ};

    ghost Value = { List ℕ };

    ghost view = { λ s. s.lines.items };
}

impl Lines {
    /// The list of these lines.
    pub fn of(lines: Vec<u32>) -> Lines
        ensures { result ≡ lines.items }
    {
        Lines { lines }
    }

    /// The lines in order.
    pub fn items(&self) -> &[u32]
        ensures { result.now ≡ self.now }
    {
        &self.lines
    }

    /// The lines as a vector.
    pub fn into_vec(self) -> Vec<u32>
        ensures { result.items ≡ self }
    {
        self.lines
    }
}

/// The triangles of a file, and for each the number of the line of its face.
#[derive(Drop)]
pub struct Soup {
    pub tris: Tris,
    pub lines: Lines,
    ghost paired: { length tris ≡ length lines },
    ghost valid: { All IsValidTri tris },
}

impl Soup {
    /// The triangles with their lines.
    pub fn of(tris: Tris, lines: Lines) -> Soup
        requires paired { length tris ≡ length lines }
        requires valid { All IsValidTri tris }
        ensures tris { result.tris ≡ tris }
        ensures lines { result.lines ≡ lines }
    {
        Soup { tris, lines }
    }
}
