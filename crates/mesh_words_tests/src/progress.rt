// How far a run has come, on a terminal and by a clock that the tests set.
use mesh_outside::{ProgressGate, Stage, Stages, percentage, weight};
use std::alloc::Global;
use std::cell::{Cell, RefCell};
use std::fmt::{Display, Write};
use std::io;
use std::io::Eprint;
use std::rt::Clock;
use std::time::Duration;
use steal_pool::Gate;

// A clock that stands still until it is set, and a terminal that keeps what is written to it.
#[derive(Drop)]
struct Desk {
    milliseconds: Cell<u64>,
    text: RefCell<String>,
}

impl Desk {
    fn new(alloc: Global) -> Desk {
        Desk {
            milliseconds: Cell::new(0),
            text: RefCell::new(String::new(alloc)),
        }
    }

    // Takes what was written since the last call. It is this text.
    fn shows(&self, alloc: Global, text: &str) -> bool {
        match self.text.try_replace(String::new(alloc)) {
            Ok(taken) => taken.as_str() == text,
            Err(_) => false,
        }
    }
}

impl Clock for Desk {
    fn monotonic(&self) -> io::Result<Duration> {
        Ok(Duration::from_millis(self.milliseconds.get()))
    }

    fn since_1970(&self) -> io::Result<Duration> {
        Ok(Duration::from_millis(self.milliseconds.get()))
    }
}

impl Eprint for Desk {
    fn eprint<D: Display + Drop>(&self, value: D) -> io::Result<()> {
        if let Ok(mut text) = self.text.try_borrow_mut() {
            let _ = write!(text, "{value}");
        }
        Ok(())
    }

    fn eprintln<D: Display + Drop>(&self, value: D) -> io::Result<()> {
        self.eprint(value)
    }
}

// then the others, each after what is done by then
static A_LINE_FOLLOWS_THE_BOXES: [(u64, u64, &str); 8] = [
    (1000, 9, "ember-mesh:  12 %    \r"),
    (1099, 5, ""),
    (1100, 3, "ember-mesh:  50 %    \r"),
    (1200, 6, ""),
    (1300, 1 << 20, ""),
    (1400, 7, "ember-mesh:  75 %    \r"),
    (1450, 14, ""),
    (1500, 15, "ember-mesh:  87 %    \r"),
];

#[test]
fn a_line_follows_the_boxes(rt: HostRuntime) {
    let desk = Desk::new(rt.alloc());
    let gate = ProgressGate::new(&desk, true);
    // the root and three left halves in the first second
    for path in [1, 2, 4] {
        gate.enter(path);
    }
    desk.milliseconds.set(999);
    gate.enter(8);
    assert!(rt; desk.shows(rt.alloc(), ""));
    for &(time, path, line) in &A_LINE_FOLLOWS_THE_BOXES {
        desk.milliseconds.set(time);
        gate.enter(path);
        assert!(rt; desk.shows(rt.alloc(), line));
    }
    gate.clear();
    assert!(rt; desk.shows(rt.alloc(), "                     \r"));
}

static A_STAGE_IS_SHOWN_WHEN_IT_BEGINS: [(u64, Stage, &str); 7] = [
    (999, Stage::Reading, ""),
    (1000, Stage::Reading, "ember-mesh: reading  \r"),
    (1200, Stage::Reading, ""),
    (1201, Stage::Snapping, "ember-mesh: snapping \r"),
    (5000, Stage::Triangles, "ember-mesh: triangles\r"),
    (5001, Stage::Triangles, ""),
    (5002, Stage::Writing, "ember-mesh: writing  \r"),
];

#[test]
fn a_stage_is_shown_when_it_begins(rt: HostRuntime) {
    let desk = Desk::new(rt.alloc());
    let gate = ProgressGate::new(&desk, true);
    for &(time, stage, line) in &A_STAGE_IS_SHOWN_WHEN_IT_BEGINS {
        desk.milliseconds.set(time);
        gate.begin(stage);
        assert!(rt; desk.shows(rt.alloc(), line));
    }
    gate.clear();
    assert!(rt; desk.shows(rt.alloc(), "                     \r"));
}

#[test]
fn nothing_is_shown_that_is_not_wanted(rt: HostRuntime) {
    let desk = Desk::new(rt.alloc());
    for is_wanted in [false, true] {
        desk.milliseconds.set(0);
        let gate = ProgressGate::new(&desk, is_wanted);
        desk.milliseconds.set(if is_wanted { 500 } else { 5000 });
        for path in [1, 2, 3] {
            gate.enter(path);
        }
        gate.begin(Stage::Triangles);
        gate.clear();
        assert!(rt; desk.shows(rt.alloc(), ""));
    }
}

static WEIGHTS: [(u64, u64); 9] = [
    (1, 65536),
    (2, 32768),
    (3, 32768),
    (7, 16384),
    (65535, 2),
    (65536, 1),
    (131071, 1),
    (131072, 0),
    (1 << 36, 0),
];

static PERCENTAGES: [(u64, u64); 6] = [
    (0, 0),
    (655, 0),
    (656, 1),
    (65535, 99),
    (65536, 100),
    (98304, 100),
];

#[test]
fn weights_and_percentages(rt: HostRuntime) {
    for &(path, want) in &WEIGHTS {
        assert!(rt; weight(path) == want);
    }
    for &(done, want) in &PERCENTAGES {
        assert!(rt; percentage(done) == want);
    }
}
