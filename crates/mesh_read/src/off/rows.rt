// Lines that have a word.
ghost use Rattle.std.specs.Prelude.{◌≡◌, ◌+◌, ◌<◌, ◌≤◌, ◌^◌, [], ◌∷◌, MatchOption, IfSome, length, nat_le};
ghost use Rattle.mesh_read.specs.Off.Rows.{rows_of};
ghost use Rattle.mesh_read.specs.Off.RowViews.{words_of_row, rows_in};

use crate::off::row::{Row, Rows};
use crate::scan::{next_line, next_word, part_behind_mark, without_comment};

// All rows of a file.
pub(crate) fn first_rows<'a>(bytes: &'a [u8]) -> Rows<'a>
    requires { length bytes.now < 2 ^ 31 }
    ensures rows { rows_in result ≡ rows_of bytes.now }
    ensures numbered { result.number ≤ result.rest.start + 1 }
{
    Rows {
        number: 1,
        rest: part_behind_mark(bytes),
    }
}

// The first row, and what follows it.
#[tactic(none)]
pub(crate) fn next_row<'a>(rows: Rows<'a>) -> Option<(Row<'a>, Rows<'a>)>
    requires { rows.number ≤ rows.rest.start + 1 }
    ensures rows { MatchOption result (rows_in rows.entry ≡ [])
        (λ p. rows_in rows.entry ≡ words_of_row p.0 ∷ rows_in p.1) }
    ensures shorter { IfSome result (λ p. length p.1.rest.bytes.now < length rows.entry.rest.bytes.now) }
    ensures numbered { IfSome result (λ p. p.1.number ≤ p.1.rest.start + 1) }
{
    let mut rows = rows;
    while let Some((line, after)) = next_line(rows.rest) {
        let number = rows.number;
        rows = Rows {
            number: number + 1,
            rest: after,
        };
        if let Some((first, others)) = next_word(without_comment(line)) {
            let row = Row {
                line: number,
                first,
                others,
            };
            return Some((row, rows));
        }
    }
    None
}

// Whether there are at least `count` rows.
#[tactic(none)]
pub(crate) fn are_rows<'a>(rows: Rows<'a>, count: usize) -> bool
    requires { rows.number ≤ rows.rest.start + 1 }
    ensures { result ≡ nat_le count (length (rows_in rows.entry)) }
{
    let mut rest = rows;
    let mut left = count;
    while left > 0 {
        let Some((_, after)) = next_row(rest) else {
            return false;
        };
        left -= 1;
        rest = after;
    }
    true
}
