//! The report of a run, four counts, and its line.
#![tactic(auto)]

mod line;
mod report;

pub use line::report_line;
pub use report::{Report, report_of};
