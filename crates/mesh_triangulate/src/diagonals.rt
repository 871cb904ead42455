// Lines for diagonals.
ghost use Rattle.std.specs.Prelude.{◌≡◌, IfOk, OnOk, IfSome};
ghost use Rattle.mesh_triangulate.specs.Diagonals.{edge_key, pair_key, line_at, AreNumbered, AreExtended};

use ember_model::OutOfMemory;
use std::alloc::Global;
use std::collections::HashMap;

/// The lines of the diagonals so far, by the keys of their pairs of corners, and the next line.
#[derive(Drop)]
pub struct Diagonals {
    pub lines: HashMap<u64, u32>,
    pub next: u64,
}

/// The key of an edge.
pub fn edge_key(start: u32, end: u32) -> u64
    ensures { result ≡ edge_key start end }
{
    start as u64 * 4_294_967_296 + end as u64
}

/// The key of an edge and of its reverse.
pub fn pair_key(start: u32, end: u32) -> u64
    ensures { result ≡ pair_key start end }
{
    edge_key(start.min(end), start.max(end))
}

impl Diagonals {
    /// No diagonals, and the lines from the first on.
    pub fn from(alloc: Global, first_line: u32) -> Diagonals
        ensures numbered { AreNumbered (line_at result) first_line result.next }
        ensures next { result.next ≡ first_line }
    {
        Diagonals {
            lines: HashMap::new(alloc),
            next: first_line as u64,
        }
    }

    /// The line of the key: its own, or otherwise the next one. None if the lines have run out.
    pub fn line_of(&mut self, key: u64) -> Result<Option<u32>, OutOfMemory>
        ensures line { IfOk result (λ line. IfSome line (λ l. line_at self.new key ≡ Some l)) }
        ensures extended { OnOk result (AreExtended self.old self.new) }
    {
        if let Some(line) = self.lines.get(&key) {
            return Ok(Some(*line));
        }
        let Ok(line) = u32::try_from(self.next) else {
            return Ok(None);
        };
        self.lines.insert(key, line)?;
        self.next += 1;
        Ok(Some(line))
    }
}
