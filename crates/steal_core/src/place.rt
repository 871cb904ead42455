// Where a box is in the model, and what can happen to it.

/// Where a box is.
#[derive(Clone, Copy, Debug)]
pub enum Place {
    /// In the hand of this worker; the number past the last worker is the caller's.
    Hand(u32),
    /// In the deque of this worker.
    Deque(u32),
    /// It was halved or finished.
    Ended,
}

/// A box and its place.
#[derive(Clone, Copy, Debug)]
pub struct Placed {
    pub place: Place,
    pub path: u64,
}

/// What happens to a box.
#[derive(Clone, Copy, Debug)]
pub enum Event {
    /// The box in the hand becomes its left half, and the right half goes to the back of the own
    /// deque.
    Push { by: u32, path: u64 },
    /// The box in the hand becomes both its halves: its push was refused.
    Hold { by: u32, path: u64 },
    /// The last box of the own deque goes to the hand.
    Pop { by: u32 },
    /// The first box of the deque of `from` goes to the hand of `by`.
    Steal { by: u32, from: u32 },
    /// The last box of the deque of `from` goes to the caller's hand.
    Drain { from: u32 },
    /// The box leaves the hand.
    Finish { by: u32, path: u64 },
}
