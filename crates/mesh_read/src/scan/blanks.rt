// The bytes that separate words.
ghost use Rattle.std.specs.Prelude.{◌≡◌};
ghost use Rattle.mesh_read.specs.Scan.Parts.{is_blank};

/// The bytes that separate words.
#[derive(Clone, Copy)]
pub enum Blanks {
    /// Spaces, tabs and carriage returns.
    InLine,
    /// Those of C's `isspace`: spaces, and all bytes from tab to carriage return.
    Any,
}

pub(crate) fn is_blank(byte: u8, blanks: Blanks) -> bool
    ensures { result ≡ is_blank blanks byte }
{
    match blanks {
        Blanks::InLine => byte == b' ' || byte == b'\t' || byte == b'\r',
        Blanks::Any => byte == b' ' || (9 <= byte && byte <= 13),
    }
}
