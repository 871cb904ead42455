// The model as code. The program doesn't use it.
ghost use Rattle.std.specs.Prelude.{◌≡◌, ◌+◌, ◌<◌, ◌≤◌, ◌^◌, ◌++◌, ◌∷◌, ℕ, List, true, false, length, vec_capacity, vec_len, IfOk, MatchOption};
ghost use Rattle.steal_core.specs.declared.place.Place.TheVariants.{Hand, Deque, Ended};
ghost use Rattle.steal_core.specs.declared.place.Placed.{Placed};
ghost use Rattle.steal_core.specs.declared.place.Event.TheVariants.{Push, Hold, Pop, Steal, Drain, Finish};
ghost use Rattle.steal_core.specs.Core.{Core, core, placed, begin, Halves, Fits, NoStep, OnAnswer, is_held, is_queued, HasNone, FirstAt, LastAt};

use crate::{Event, Place, Placed};
use std::alloc::{AllocError, Global};
use std::marker::Model;

/// A state of the model: where each box is, the number of workers, and for how many boxes there is
/// room.
#[derive(Drop)]
pub struct State {
    workers: u32,
    boxes: Vec<Placed>,
    room: u32,
}

impl Model for State {
    ghost use Rattle.std.specs.Prelude.{◌≤◌, vec_capacity};
    ghost use Rattle.steal_core.specs.Core.{Core, core};

    ghost Value = { Core };

    ghost view = { λ s. core s.workers s.room s.boxes.items };

    ghost invariant = { λ s. s.room ≤ vec_capacity s.boxes };
}

// Whether this is that box in that hand.
#[tactic(none)]
fn held(placed: &Placed, by: u32, path: u64) -> bool
    ensures { result ≡ is_held by path placed.now }
{
    match placed.place {
        Place::Hand(hand) => hand == by && placed.path == path,
        Place::Deque(_) => false,
        Place::Ended => false,
    }
}

// Whether this box is in that deque.
fn queued(placed: &Placed, from: u32) -> bool
    ensures { result ≡ is_queued from placed.now }
{
    match placed.place {
        Place::Hand(_) => false,
        Place::Deque(deque) => deque == from,
        Place::Ended => false,
    }
}

// The index of that box in that hand.
fn find_held(boxes: &[Placed], by: u32, path: u64) -> Option<usize>
    ensures { MatchOption result (HasNone (is_held by path) boxes.now) (λ i. FirstAt (is_held by path) boxes.now i) }
{
    let mut rest = boxes;
    let mut i = 0usize;
    while let Some((placed, after)) = rest.split_first() {
        if held(placed, by, path) {
            return Some(i);
        }
        i += 1;
        rest = after;
    }
    None
}

// The index of the first box of that deque.
fn find_first(boxes: &[Placed], from: u32) -> Option<usize>
    ensures { MatchOption result (HasNone (is_queued from) boxes.now) (λ i. FirstAt (is_queued from) boxes.now i) }
{
    let mut rest = boxes;
    let mut i = 0usize;
    while let Some((placed, after)) = rest.split_first() {
        if queued(placed, from) {
            return Some(i);
        }
        i += 1;
        rest = after;
    }
    None
}

// The index of the last box of that deque.
fn find_last(boxes: &[Placed], from: u32) -> Option<usize>
    ensures { MatchOption result (HasNone (is_queued from) boxes.now) (λ i. LastAt (is_queued from) boxes.now i) }
{
    let mut rest = boxes;
    while let Some((placed, before)) = rest.split_last() {
        if queued(placed, from) {
            return Some(before.len());
        }
        rest = before;
    }
    None
}

impl State {
    /// The start: worker 0 holds box 1, and all else is empty. It reserves room for `boxes` boxes,
    /// in hands, deques and ended together. There are 1 to 64 `workers`. The only error is
    /// out-of-memory.
    #[tactic(none)]
    pub fn new(alloc: Global, workers: u32, boxes: u32) -> Result<State, AllocError>
        requires { (1 ≤ workers) × (workers ≤ 64) × (1 ≤ boxes) }
        ensures { IfOk result (λ s. s ≡ begin workers boxes) }
    {
        let mut placed = Vec::with_capacity(alloc, boxes as usize)?;
        placed.push_reserved(Placed {
            place: Place::Hand(0),
            path: 1,
        });
        Ok(State {
            workers,
            boxes: placed,
            room: boxes,
        })
    }

    // Moves the box at index `i` to another place.
    fn relocate(&mut self, i: usize, to: Place)
        requires { i < length self.old.boxes }
        ensures { (front back : List Placed) (s : Placed) → self.old.boxes ≡ front ++ s ∷ back → i ≡ length front →
            self.new ≡ core self.old.workers self.old.room (front ++ placed to s.path ∷ back) }
    {
        let path = self.boxes[i].path;
        self.boxes[i] = Placed { place: to, path };
    }

    // Ends the box at index `i`, and adds its halves: the left one in the same hand, the right one
    // at the place `right`.
    fn halve(&mut self, i: usize, by: u32, path: u64, right: Place)
        requires at { FirstAt (is_held by path) self.old.boxes i }
        requires fits { (length self.old.boxes + 2 ≤ self.old.room) × (path < 2 ^ 36) }
        ensures { Halves by path right self.old self.new }
    {
        self.boxes[i] = Placed {
            place: Place::Ended,
            path,
        };
        self.boxes.push_reserved(Placed {
            place: Place::Hand(by),
            path: 2 * path,
        });
        self.boxes.push_reserved(Placed {
            place: right,
            path: 2 * path + 1,
        });
    }

    // The event Push. `false` if it is no step.
    fn push(&mut self, by: u32, path: u64) -> bool
        requires { Fits (Push by path) self.old }
        ensures { OnAnswer result (Push by path) self.old self.new }
    {
        if by >= self.workers {
            return false;
        }
        let Some(i) = find_held(&self.boxes, by, path) else {
            return false;
        };
        self.halve(i, by, path, Place::Deque(by));
        true
    }

    // The event Hold. `false` if it is no step.
    fn hold(&mut self, by: u32, path: u64) -> bool
        requires { Fits (Hold by path) self.old }
        ensures { OnAnswer result (Hold by path) self.old self.new }
    {
        if by > self.workers {
            return false;
        }
        let Some(i) = find_held(&self.boxes, by, path) else {
            return false;
        };
        self.halve(i, by, path, Place::Hand(by));
        true
    }

    // The event Pop. `false` if it is no step.
    fn pop(&mut self, by: u32) -> bool
        ensures { OnAnswer result (Pop by) self.old self.new }
    {
        if by >= self.workers {
            return false;
        }
        let Some(i) = find_last(&self.boxes, by) else {
            return false;
        };
        self.relocate(i, Place::Hand(by));
        true
    }

    // The event Steal. `false` if it is no step.
    #[tactic(none)]
    fn steal(&mut self, by: u32, from: u32) -> bool
        ensures { OnAnswer result (Steal by from) self.old self.new }
    {
        if by >= self.workers || from >= self.workers {
            return false;
        }
        let Some(i) = find_first(&self.boxes, from) else {
            return false;
        };
        self.relocate(i, Place::Hand(by));
        true
    }

    // The event Drain. `false` if it is no step.
    #[tactic(none)]
    fn drain(&mut self, from: u32) -> bool
        ensures { OnAnswer result (Drain from) self.old self.new }
    {
        if from >= self.workers {
            return false;
        }
        let Some(i) = find_last(&self.boxes, from) else {
            return false;
        };
        self.relocate(i, Place::Hand(self.workers));
        true
    }

    // The event Finish. `false` if it is no step.
    fn finish(&mut self, by: u32, path: u64) -> bool
        ensures { OnAnswer result (Finish by path) self.old self.new }
    {
        if by > self.workers {
            return false;
        }
        let Some(i) = find_held(&self.boxes, by, path) else {
            return false;
        };
        self.relocate(i, Place::Ended);
        true
    }

    /// Does the event's step. Returns `false`, and changes nothing, exactly if the event is no step
    /// in this state. A Push or a Hold needs room for two more boxes, and a path below 2^36. It
    /// allocates nothing.
    #[tactic(none)]
    pub fn apply(&mut self, event: Event) -> bool
        requires { Fits event self.old }
        ensures { OnAnswer result event self.old self.new }
    {
        match event {
            Event::Push { by, path } => self.push(by, path),
            Event::Hold { by, path } => self.hold(by, path),
            Event::Pop { by } => self.pop(by),
            Event::Steal { by, from } => self.steal(by, from),
            Event::Drain { from } => self.drain(from),
            Event::Finish { by, path } => self.finish(by, path),
        }
    }
}
