// Directed segments.

use ember_point::Meet;

/// A directed segment in a level plane, from `first` to `last`.
#[derive(Clone, Copy, Debug, PartialEq, Eq)]
pub struct Segment {
    pub first: Meet,
    pub last: Meet,
}
