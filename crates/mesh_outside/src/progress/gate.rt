// The gate that shows how far a run has come.
use crate::progress::stage::{Stage, Stages};
use crate::progress::weights::{is_left, percentage, weight};
use std::io::Eprint;
use std::rt::Clock;
use std::sync::atomic::{AtomicBool, AtomicU64, Ordering};
use std::time::Instant;
use steal_pool::Gate;

// After how many milliseconds the line is written first.
const SILENCE: u64 = 1000;

// For how many milliseconds at least the line stays as it is.
const PAUSE: u64 = 100;

// What the line says.
#[derive(Clone, Copy, Debug, PartialEq, Eq)]
enum Line {
    Nothing,
    Stage(Stage),
    // How many hundredths of the boxes are done.
    Boxes(u64),
}

impl Line {
    // A number that no other line has.
    fn number(self) -> u64 {
        match self {
            Line::Boxes(percentage) => percentage,
            Line::Nothing => 101,
            Line::Stage(Stage::Reading) => 102,
            Line::Stage(Stage::Snapping) => 103,
            Line::Stage(Stage::Triangles) => 104,
            Line::Stage(Stage::Writing) => 105,
        }
    }
}

// The name of the stage.
fn name_of(stage: Stage) -> &'static str {
    match stage {
        Stage::Reading => "reading",
        Stage::Snapping => "snapping",
        Stage::Triangles => "triangles",
        Stage::Writing => "writing",
    }
}

/// The gate that shows in a line on standard error how far a run has come: its stage, and while the
/// boxes are run, how many hundredths of the root's weight are done, by the weights of the boxes that
/// enter it. It writes the line again when a stage begins or the number has changed, but not in the
/// first second, and numbers at most ten times a second. It leaves the cursor at the beginning of the
/// line, so that the next line is written over it.
#[derive(Drop)]
pub struct ProgressGate<'a, R: Clock + Eprint> {
    rt: &'a R,
    // When the run began; none if nothing is to be shown.
    start: Option<Instant>,
    // The weight of the boxes that were entered and whose left half wasn't.
    entered: AtomicU64,
    // The number of the line that is shown.
    shown: AtomicU64,
    // When a percentage may be written next, in milliseconds from the start.
    due: AtomicU64,
    // Whether a thread is writing the line.
    is_writing: AtomicBool,
}

impl<'a, R: Clock + Eprint> ProgressGate<'a, R> {
    /// A gate by the clock and the standard error of `rt`. It shows nothing if it isn't wanted, or if
    /// the clock can't be read.
    pub fn new(rt: &'a R, is_wanted: bool) -> ProgressGate<'a, R> {
        let start = if is_wanted {
            Instant::now(rt).ok()
        } else {
            None
        };
        ProgressGate {
            rt,
            start,
            entered: AtomicU64::new(0),
            shown: AtomicU64::new(Line::Nothing.number()),
            due: AtomicU64::new(SILENCE),
            is_writing: AtomicBool::new(false),
        }
    }

    // Weighs a box, and gives the weight of the boxes that were entered before it and aren't halved:
    // it is done, but for the boxes that other workers run right now. A left half takes off what its
    // box weighs, twice as much as itself.
    fn weigh(&self, path: u64, weight: u64) -> u64 {
        if is_left(path) {
            let before = self.entered.fetch_sub(weight, Ordering::SeqCst);
            before.saturating_sub(weight).saturating_sub(weight)
        } else {
            self.entered.fetch_add(weight, Ordering::SeqCst)
        }
    }

    // How many milliseconds the run has lasted, if the clock can be read.
    fn time(&self, start: Instant) -> Option<u64> {
        u64::try_from(start.elapsed(self.rt).ok()?.as_millis()).ok()
    }

    // Whether the line is shown.
    fn is_shown(&self, line: Line) -> bool {
        self.shown.load(Ordering::SeqCst) == line.number()
    }

    // Writes the line over the one before it: each is as long as the longest.
    fn write(&self, line: Line) {
        // A line that can't be written is left out: no result depends on it.
        let _ = match line {
            Line::Nothing => eprint!(self.rt; "{:21}\r", ""),
            Line::Stage(stage) => eprint!(self.rt; "ember-mesh: {:<9}\r", name_of(stage)),
            Line::Boxes(percentage) => eprint!(self.rt; "ember-mesh: {percentage:>3} %    \r"),
        };
    }

    // Writes the line, unless that isn't due or another thread is writing.
    fn show(&self, line: Line, due: u64, start: Instant) {
        let Some(time) = self.time(start) else {
            return;
        };
        if time < due || self.is_writing.swap(true, Ordering::SeqCst) {
            return;
        }
        self.shown.store(line.number(), Ordering::SeqCst);
        self.due.store(time.saturating_add(PAUSE), Ordering::SeqCst);
        self.write(line);
        self.is_writing.store(false, Ordering::SeqCst);
    }

    /// Clears the line, if one was shown. The run must have ended.
    pub fn clear(&self) {
        if !self.is_shown(Line::Nothing) {
            self.write(Line::Nothing);
        }
    }
}

impl<R: Clock + Eprint> Gate for ProgressGate<'_, R> {
    fn enter(&self, path: u64) {
        let Some(start) = self.start else {
            return;
        };
        // Small boxes weigh nothing, so that most boxes cost nothing either.
        let weight = weight(path);
        if weight == 0 {
            return;
        }
        let line = Line::Boxes(percentage(self.weigh(path, weight)));
        if !self.is_shown(line) {
            self.show(line, self.due.load(Ordering::SeqCst), start);
        }
    }
}

impl<R: Clock + Eprint> Stages for ProgressGate<'_, R> {
    fn begin(&self, stage: Stage) {
        let Some(start) = self.start else {
            return;
        };
        let line = Line::Stage(stage);
        if !self.is_shown(line) {
            self.show(line, SILENCE, start);
        }
    }
}
