// How much boxes count.
ghost use Rattle.std.specs.Prelude.{◌≡◌, ◌*◌, ◌/◌, ◌^◌, ◌≤◌, min};
ghost use Rattle.mesh_outside.specs.Progress.Weights.{depth_of, is_left, weight_of};

/// The weight of the root box.
pub const ROOT_WEIGHT: u64 = 1 << 16;

// The number of halvings that made the box of this path.
fn depth(path: u64) -> u32
    ensures { result ≡ depth_of path }
{
    63u32.saturating_sub(path.leading_zeros())
}

/// The weight of the box of this path: that of the root, halved as often as the box was. A box that
/// was halved more than 16 times has the weight 0.
pub fn weight(path: u64) -> u64
    ensures { result ≡ weight_of path }
{
    ROOT_WEIGHT >> depth(path)
}

/// Whether a box of this path is the left half of another.
pub fn is_left(path: u64) -> bool
    ensures { result ≡ is_left path }
{
    path % 2 == 0
}

/// How many hundredths of the root's weight a weight is, rounded down. A larger weight counts as the
/// root's.
pub fn percentage(weight: u64) -> u64
    ensures value { result ≡ min weight (2 ^ 16) * 100 / 2 ^ 16 }
    ensures range { result ≤ 100 }
{
    weight.min(ROOT_WEIGHT) * 100 / ROOT_WEIGHT
}
