// By what a file shows that it is an OFF file.
ghost use Rattle.std.specs.Prelude.{◌≡◌, ◌≤◌, length};
ghost use Rattle.ember_model.specs.Limits.{most_bytes};
ghost use Rattle.mesh_read.specs.Off.Signs.{is_off, begins_with_count};

use crate::off::keywords::{is_count, is_homogeneous, is_keyword};
use crate::off::rows::{first_rows, next_row};

/// Whether the first word of a file is a keyword of OFF files: `OFF` or `4OFF`, maybe with `ST`, `C`
/// and `N` before it, in this order and in any case. Comments, empty lines and a byte order mark
/// before it don't count. There are at most 2^28 bytes.
pub fn is_off(bytes: &[u8]) -> bool
    requires { length bytes.now ≤ most_bytes }
    ensures { result ≡ is_off bytes.now }
{
    match next_row(first_rows(bytes)) {
        Some((row, _)) => is_keyword(row.first.bytes) || is_homogeneous(row.first.bytes),
        None => false,
    }
}

/// Whether the first word of a file is a natural number, as in an OFF file without a keyword.
/// Comments, empty lines and a byte order mark before it don't count. There are at most 2^28 bytes.
pub fn begins_with_count(bytes: &[u8]) -> bool
    requires { length bytes.now ≤ most_bytes }
    ensures { result ≡ begins_with_count bytes.now }
{
    match next_row(first_rows(bytes)) {
        Some((row, _)) => is_count(row.first.bytes),
        None => false,
    }
}
