// The reply to a command.
ghost use Rattle.std.specs.Prelude.{◌≡◌, []};

use std::alloc::Global;

/// The reply to a command: the output, for `out`, and the line of the report, for `err` after it.
/// The report is empty if none is asked for.
#[derive(Drop)]
pub struct Reply {
    pub text: Vec<u8>,
    pub report: Vec<u8>,
}

impl Reply {
    /// A text without a report.
    pub fn of(alloc: Global, text: Vec<u8>) -> Reply
        ensures text { result.text.items ≡ text.items }
        ensures report { result.report.items ≡ [] }
    {
        Reply {
            text,
            report: Vec::new(alloc),
        }
    }
}
