// The limits of a path.
ghost use Rattle.std.specs.Prelude.{◌<◌};
ghost use Rattle.ember_algebra.specs.Size.{Small};
ghost use Rattle.ember_box.specs.Aabbs.{most_wall};

/// The whole numbers with which one path compares bounding boxes: `start` is the coordinate of its
/// start along the main axis, and `first` and `second` are the floors of its end along these axes.
/// Along the second and the main axis there is also the greater of the coordinate of the start and
/// the floor of the end: a triangle that begins above it lies above the segment along this axis.
/// The floors are moved into the root so that they fit into 32 bits, since no clause here says that
/// the region lies in the root; a comparison with a triangle's bounding box stays the same. All are
/// in steps of the grid. The axes are indices into `intervals` of a near triangle.
#[derive(Clone, Copy)]
pub struct Limits {
    pub first_index: usize,
    pub second_index: usize,
    pub main_index: usize,
    pub start: i32,
    pub first: i32,
    pub second: i32,
    pub farthest_second: i32,
    pub farthest_main: i32,
    ghost first_within: { first_index < 3 },
    ghost second_within: { second_index < 3 },
    ghost main_within: { main_index < 3 },
    ghost small_start: { Small most_wall start },
    ghost small_first: { Small most_wall first },
    ghost small_second: { Small most_wall second },
    ghost small_farthest_second: { Small most_wall farthest_second },
    ghost small_farthest_main: { Small most_wall farthest_main },
}
