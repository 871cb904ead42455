// Steps of a grid.
ghost use Rattle.std.specs.Prelude.{◌≡◌, ◌<◌, ◌≤◌};
ghost use Rattle.mesh_grid.specs.Snap.Steps.{IsStep, nice_of, fine_number, fine_decade, fine_of};

/// The length of a grid's step: a numerator and a denominator from 1 to 2^40 - 1.
#[derive(Clone, Copy, Debug, PartialEq, Eq)]
pub struct GridStep {
    pub numerator: u64,
    pub denominator: u64,
}

// The least step of all.
pub(crate) const FINEST: GridStep = GridStep {
    numerator: 1,
    denominator: 1_000_000_000_000,
};

// The number of nice steps, from 10^-12 to 5 * 10^11.
pub(crate) const NICE_STEPS: u32 = 72;

// 1, 2 or 5 times a power of ten.
pub(crate) fn nice(rank: u32) -> GridStep
    requires { rank < NICE_STEPS }
    ensures value { result ≡ nice_of rank }
    ensures step { IsStep result }
{
    let digit = match rank % 3 {
        0 => 1,
        1 => 2,
        _ => 5,
    };
    let decade = rank / 3;
    GridStep {
        numerator: digit * 10u64.pow(decade.saturating_sub(12)),
        denominator: 10u64.pow(12u32.saturating_sub(decade)),
    }
}

// The number of steps of at most four digits, from 10^-12 to 9999 * 10^8.
pub(crate) const FINE_STEPS: u32 = 189_999;

fn fine_number(rank: u32) -> u32
    ensures value { result ≡ fine_number rank }
    ensures positive { 0 < result }
    ensures small { result ≤ 9999 }
{
    if rank < 999 {
        rank + 1
    } else {
        1000 + (rank - 999) % 9000
    }
}

fn fine_decade(rank: u32) -> u32
    requires { rank < FINE_STEPS }
    ensures value { result ≡ fine_decade rank }
    ensures small { result ≤ 20 }
{
    if rank < 999 { 0 } else { (rank - 999) / 9000 }
}

// A number from 1 to 9999 times a power of ten.
pub(crate) fn fine(rank: u32) -> GridStep
    requires { rank < FINE_STEPS }
    ensures value { result ≡ fine_of rank }
    ensures step { IsStep result }
{
    let number = u64::from(fine_number(rank));
    let decade = fine_decade(rank);
    GridStep {
        numerator: number * 10u64.pow(decade.saturating_sub(12)),
        denominator: 10u64.pow(12u32.saturating_sub(decade)),
    }
}
