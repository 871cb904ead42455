// The report of a run.
ghost use Rattle.std.specs.Prelude.{◌≡◌, ◌<◌, ◌^◌, length, count_by};
ghost use Rattle.std.specs.List.{sum_by};
ghost use Rattle.ember_report.specs.Reports.{is_leaf, is_skipped, report_from};

use ember_job::{Entry, Journals, Kind};

/// How many boxes were visited, how many of them are leaves, how many were skipped, and how many
/// faces were written.
#[derive(Clone, Copy, Debug, PartialEq, Eq)]
pub struct Report {
    pub boxes: u64,
    pub leaves: u64,
    pub skipped: u64,
    pub faces: u64,
}

// Whether the box is a leaf.
#[tactic(none)]
fn is_leaf(entry: &Entry) -> bool
    ensures { result ≡ is_leaf entry.now }
{
    match entry.kind {
        Kind::Leafed => true,
        _ => false,
    }
}

// Whether the box was skipped.
#[tactic(none)]
fn is_skipped(entry: &Entry) -> bool
    ensures { result ≡ is_skipped entry.now }
{
    match entry.kind {
        Kind::Passed => true,
        _ => false,
    }
}

// The number of leaves in a journal.
fn leaves_in(journal: &[Entry]) -> u64
    ensures { result ≡ count_by is_leaf journal.now }
{
    journal.iter().filter(|entry| is_leaf(entry)).count() as u64
}

// The number of skipped boxes in a journal.
fn skipped_in(journal: &[Entry]) -> u64
    ensures { result ≡ count_by is_skipped journal.now }
{
    journal.iter().filter(|entry| is_skipped(entry)).count() as u64
}

/// The report of a run with these journals that wrote this number of faces: it counts the entries
/// of all journals, the leaves among them, and the skipped boxes. All journals together have fewer
/// than 2^64 entries.
pub fn report_of(journals: &Journals, faces: u64) -> Report
    requires { sum_by length journals.now < 2 ^ 64 }
    ensures { result ≡ report_from journals.now faces }
{
    let mut report = Report {
        boxes: 0,
        leaves: 0,
        skipped: 0,
        faces,
    };
    for journal in journals.items() {
        report.boxes += journal.len() as u64;
        report.leaves += leaves_in(journal);
        report.skipped += skipped_in(journal);
    }
    report
}
