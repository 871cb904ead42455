// The lines of a file and the words of a line, each with its place.

mod blanks;
mod cut;
mod lines;
mod part;
mod split;
mod words;

pub use blanks::Blanks;
pub use cut::cut_before;
pub(crate) use lines::part_behind_mark;
pub use lines::{next_line, without_comment};
pub use part::{Part, Span};
pub use words::{next_word, next_word_between, three_words};
