// What a worker calls before each box.
use std::sync::atomic::{AtomicU64, Ordering};
use std::thread;

/// A worker calls it before each box, with the path of the box.
pub trait Gate {
    /// Called before the box with this path is run. It may wait.
    fn enter(&self, path: u64);
}

/// The gate that does nothing.
#[derive(Clone, Copy, Debug)]
pub struct OpenGate;

impl Gate for OpenGate {
    fn enter(&self, _path: u64) {}
}

/// The gate of the tests. It holds each box of one depth until all boxes of that depth have
/// arrived, each for at most `TURNS` turns. Once a box has waited for so many turns, it lets every
/// box pass.
#[derive(Drop)]
pub struct DepthGate {
    depth: u32,
    come: AtomicU64,
    tired: AtomicU64,
}

/// For how many turns a box waits at most.
pub const TURNS: u64 = 1_000_000_000;

impl DepthGate {
    /// The gate that holds the boxes of this depth.
    pub fn new(depth: u32) -> DepthGate {
        DepthGate {
            depth,
            come: AtomicU64::new(0),
            tired: AtomicU64::new(0),
        }
    }

    /// Whether some box has waited until the limit of turns.
    pub fn was_tired(&self) -> bool {
        self.tired.load(Ordering::SeqCst) != 0
    }
}

// The number of halvings that made the box of this path.
fn depth_of(path: u64) -> u32 {
    63u32.saturating_sub(path.leading_zeros())
}

impl Gate for DepthGate {
    fn enter(&self, path: u64) {
        if depth_of(path) != self.depth {
            return;
        }
        self.come.fetch_add(1, Ordering::SeqCst);
        let all = 1u64.wrapping_shl(self.depth);
        for _ in 0..TURNS {
            if self.come.load(Ordering::SeqCst) >= all || self.was_tired() {
                return;
            }
            thread::yield_now();
        }
        self.tired.fetch_or(1, Ordering::SeqCst);
    }
}
