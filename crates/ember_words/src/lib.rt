//! Reads the command that the words of the command line give.
#![tactic(auto)]

mod arguments;
mod command;
mod limits;
mod reading;
mod text;
mod values;
mod verb;

pub use command::{Command, WordsFault};
pub use reading::read_words;
pub use text::{Text, Texts};
