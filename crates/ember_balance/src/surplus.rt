// The first number that one sorted list has more often than another.
ghost use Rattle.std.specs.Prelude.{◌≡◌, ◌≤◌, ℕ, length, MatchOption};
ghost use Rattle.std.specs.List.Sorted.{IsNonDecreasing};
ghost use Rattle.ember_model.specs.Limits.{most_edges};
ghost use Rattle.ember_balance.specs.Counts.{count, IsFirstSurplus, HasNoSurplus};

/// How often the number occurs in the list.
pub fn count(number: u128, numbers: &[u128]) -> u32
    requires { length numbers.now ≤ most_edges }
    ensures { result ≡ count number numbers.now }
{
    let mut found = 0;
    for other in numbers {
        if number == *other {
            found += 1;
        }
    }
    found
}

/// The least number that occurs more often in the first list than in the second. Both lists are
/// sorted.
pub fn first_surplus(there: &[u128], back: &[u128]) -> Option<u128>
    requires there { IsNonDecreasing there.now }
    requires back { IsNonDecreasing back.now }
    ensures { MatchOption result (HasNoSurplus there.now back.now) (λ n. IsFirstSurplus n there.now back.now) }
{
    let mut i = 0;
    for number in back {
        if i == there.len() {
            return None;
        }
        if there[i] < *number {
            return Some(there[i]);
        }
        if there[i] == *number {
            i += 1;
        }
    }
    if i < there.len() {
        Some(there[i])
    } else {
        None
    }
}
