// The two atomic words that all workers share.
use crossbeam_utils::CachePadded;
use std::sync::Wait;
use std::sync::atomic::{AtomicU64, Ordering};
use std::thread;
use std::time::Duration;

// The volume of the root box, in units of the smallest box.
const WHOLE: u64 = 1 << 36;

// How often an idle worker tries all deques before it sleeps.
const ROUNDS: u32 = 64;

// The first sleep of an idle worker, in microseconds. Each later one is twice as long as the one
// before it, until it was doubled `DOUBLINGS` times.
const FIRST_SLEEP: u64 = 62;

// How often the length of a sleep is doubled. The longest one is then 62 * 2^4 = 992 microseconds.
const DOUBLINGS: u32 = 4;

/// How far a run is. No contract says what the words contain.
#[derive(Drop)]
pub struct Progress {
    // The volume of the finished boxes: those that ended without being halved.
    finished: CachePadded<AtomicU64>,
    // Not zero once memory ran out.
    stop: CachePadded<AtomicU64>,
}

impl Progress {
    /// The start: no box is finished, and nobody need stop.
    pub fn new() -> Progress {
        Progress {
            finished: CachePadded::new(AtomicU64::new(0)),
            stop: CachePadded::new(AtomicU64::new(0)),
        }
    }

    /// Adds the volume of the box of this path.
    pub fn add(&self, path: u64) {
        let finished: &AtomicU64 = &self.finished;
        finished.fetch_add(volume(path), Ordering::SeqCst);
    }

    /// Whether the finished boxes, the leaves and the skipped ones, make up the whole root, so that
    /// no box is left.
    pub fn is_whole(&self) -> bool {
        let finished: &AtomicU64 = &self.finished;
        finished.load(Ordering::SeqCst) == WHOLE
    }

    /// Tells all workers to leave.
    pub fn stop(&self) {
        let stop: &AtomicU64 = &self.stop;
        stop.fetch_or(1, Ordering::SeqCst);
        stop.wake_all();
    }

    /// Whether memory ran out for some worker.
    pub fn is_stopped(&self) -> bool {
        let stop: &AtomicU64 = &self.stop;
        stop.load(Ordering::SeqCst) != 0
    }

    /// What an idle worker does after it found nothing in `rounds` rounds over all deques: it
    /// yields, and from 64 rounds on it sleeps for at most a millisecond.
    pub fn back_off<R: Wait>(&self, rt: &R, rounds: u32) {
        if rounds < ROUNDS {
            thread::yield_now();
            return;
        }
        let doublings = rounds.saturating_sub(ROUNDS).min(DOUBLINGS);
        let micros = FIRST_SLEEP.wrapping_shl(doublings);
        let stop: &AtomicU64 = &self.stop;
        stop.park_timeout(rt, 0, Duration::from_micros(micros));
    }
}

// The volume of the box of this path, in units of the smallest box.
fn volume(path: u64) -> u64 {
    let depth = 63u32.saturating_sub(path.leading_zeros());
    1u64.wrapping_shl(36u32.saturating_sub(depth))
}
