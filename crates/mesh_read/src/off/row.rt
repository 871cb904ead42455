// A row, and the rows that are left.
use crate::scan::Part;

// A line with its number, its first word and what follows that.
#[derive(Clone, Copy)]
pub(crate) struct Row<'a> {
    pub line: u32,
    pub first: Part<'a>,
    pub others: Part<'a>,
}

// What is left of the file, from the line with this number on.
#[derive(Clone, Copy)]
pub(crate) struct Rows<'a> {
    pub number: u32,
    pub rest: Part<'a>,
}
