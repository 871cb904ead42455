// Writes triangles as a page of HTML that shows them.

mod counts;
mod drawing;
mod head;
mod texts;
mod writing;

pub use writing::page_bytes;
