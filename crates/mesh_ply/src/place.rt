// The place of a row.
use mesh_read::Span;

// The name of a row's element in the header, the row's number from 1, and how many vertices are
// before it.
#[derive(Clone, Copy)]
pub(crate) struct RowPlace {
    pub name: Span,
    pub number: u32,
    pub vertices: u32,
}
