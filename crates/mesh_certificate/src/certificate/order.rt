// Lists of numbers that differ only in their order.
ghost use Rattle.std.specs.Prelude.{◌≡◌, ◌↔◌, ◌<◌, ◌≤◌, ℕ, length, IsTrue};
ghost use Rattle.std.specs.List.Sorted.{IsPermutation, IsNonDecreasing};
ghost use Rattle.ember_balance.specs.Counts.{count};

// The bits below the number of a plane in the key of a segment, and in the key of a corner on a line
// or of a pair of corners.
pub const BELOW_PLANE_OF_SEGMENT: u32 = 96;

const BELOW_PLANE: u32 = 64;

// The end of the numbers from an index on that differ only in their lowest bits.
fn stretch_end(numbers: &[u128], low: usize, bits: u32) -> usize
    requires low { low < length numbers.now }
    requires bits { bits < 128 }
    ensures after { low < result }
    ensures within { result ≤ length numbers.now }
{
    let high_bits = numbers[low] >> bits;
    for i in low + 1..numbers.len() {
        if numbers[i] >> bits != high_bits {
            return i;
        }
    }
    numbers.len()
}

// Sorts each stretch of numbers that differ only in their lowest bits.
fn sort_stretches(numbers: &mut [u128], bits: u32)
    requires { bits < 128 }
    ensures { IsPermutation numbers.old numbers.new }
{
    let mut low = 0;
    while low < numbers.len() {
        let high = stretch_end(numbers, low, bits);
        numbers[low..high].sort_unstable();
        low = high;
    }
}

/// Sorts numbers that are mostly in order but for their lowest bits: first those that differ only in
/// these bits, which takes less time than to sort all at once.
pub fn sort_by_stretches(numbers: &mut Vec<u128>, bits: u32)
    requires { bits < 128 }
    ensures permutation { IsPermutation numbers.old.items numbers.new.items }
    ensures order { IsNonDecreasing numbers.new.items }
{
    sort_stretches(numbers.as_mut_slice(), bits);
    numbers.sort_unstable();
}

/// Whether each number occurs as often in one list as in the other. It takes less time if both lists
/// are keys in order of planes.
pub fn are_rearranged(first: Vec<u128>, second: Vec<u128>) -> bool
    ensures { IsTrue result ↔ ((n : ℕ) → count n first.items ≡ count n second.items) }
{
    let mut first = first;
    let mut second = second;
    sort_by_stretches(&mut first, BELOW_PLANE);
    sort_by_stretches(&mut second, BELOW_PLANE);
    first == second
}

/// The same for numbers of 64 bits, which are sorted in less time.
pub fn are_words_rearranged(one: Vec<u64>, other: Vec<u64>) -> bool
    ensures { IsTrue result ↔ ((n : ℕ) → count n one.items ≡ count n other.items) }
{
    let mut one = one;
    let mut other = other;
    one.sort_unstable();
    other.sort_unstable();
    one == other
}
