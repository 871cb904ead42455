// The numbers of vertices and faces.
ghost use Rattle.std.specs.Prelude.{◌≡◌, ◌≤◌, ◌∷◌, IfSome};
ghost use Rattle.std.specs.Option.{option_map};
ghost use Rattle.mesh_read.specs.Scan.Parts.{piece_of, words_in};
ghost use Rattle.mesh_read.specs.Off.ReadOff.{counts_of};
ghost use Rattle.mesh_read.specs.Off.Limits.{capped};

use crate::scan::{Part, next_word};
use mesh_number::{MOST, number_in};

// The counts of a row with this first word, each the limit if it is larger.
#[tactic(none)]
pub(crate) fn counts_in<'a>(first: Part<'a>, others: Part<'a>) -> Option<(u64, u64)>
    ensures value { result ≡ option_map (capped MOST) (counts_of (piece_of first.entry ∷ words_in others.entry)) }
    ensures small { IfSome result (λ c. (c.0 ≤ MOST) × (c.1 ≤ MOST)) }
{
    let (second, _) = next_word(others)?;
    let vertices = number_in(first.bytes)?;
    let faces = number_in(second.bytes)?;
    Some((vertices, faces))
}
