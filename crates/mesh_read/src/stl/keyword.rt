// The words that lines of an ASCII STL begin with.
ghost use Rattle.std.specs.Prelude.{◌≡◌};
ghost use Rattle.std.specs.Str.{str_eq_ignore_ascii_case};
ghost use Rattle.mesh_read.specs.Stl.Ascii.{is_passed, keyword_of};

#[derive(Clone, Copy)]
pub(crate) enum Keyword {
    Facet,
    Vertex,
    EndFacet,
    Passed,
    Unknown,
}

// Whether the texts differ at most in case.
pub(crate) fn is_same_word(one: &[u8], other: &[u8]) -> bool
    ensures { result ≡ str_eq_ignore_ascii_case one.now other.now }
{
    one.eq_ignore_ascii_case(other)
}

// Whether a line that begins with the word is passed over.
#[tactic(none)]
fn is_passed_over(word: &[u8]) -> bool
    ensures { result ≡ is_passed word.now }
{
    is_same_word(word, b"solid")
        || is_same_word(word, b"outer")
        || is_same_word(word, b"endloop")
        || is_same_word(word, b"endsolid")
}

pub(crate) fn keyword_in(word: &[u8]) -> Keyword
    ensures { result ≡ keyword_of word.now }
{
    if is_same_word(word, b"facet") {
        Keyword::Facet
    } else if is_same_word(word, b"vertex") {
        Keyword::Vertex
    } else if is_same_word(word, b"endfacet") {
        Keyword::EndFacet
    } else if is_passed_over(word) {
        Keyword::Passed
    } else {
        Keyword::Unknown
    }
}
