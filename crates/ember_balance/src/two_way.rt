// Whether each edge occurs as often as its reverse: found in one pass over sorted numbers.
ghost use Rattle.std.specs.Prelude.{◌≡◌, ◌+◌, ◌≤◌, ◌||◌, nat_eq, List, [], ◌∷◌, ◌++◌, ℕ, length, IfSome, IsTrue};
ghost use Rattle.ember_model.specs.Limits.{most_edges};
ghost use Rattle.ember_balance.specs.Numbers.{has_one_end, AreTwoWay};
ghost use Rattle.ember_balance.specs.Tallies.{IsTallied};

use crate::numbers::has_one_end;

// An edge's number, and how often the edge and its reverse occurred so far.
#[derive(Clone, Copy)]
struct Tally {
    number: u128,
    there: u32,
    back: u32,
}

impl Tally {
    // Whether the edge occurred as often as its reverse, or is its own reverse.
    fn is_even(&self) -> bool
        ensures { result ≡ (nat_eq self.now.there self.now.back || has_one_end self.now.number) }
    {
        self.there == self.back || has_one_end(self.number)
    }

    // The tally after one edge more. None if that is another edge and the one before isn't even.
    fn after(&self, two_way: u128) -> Option<Tally>
        requires { self.now.there + self.now.back ≤ most_edges }
        ensures tallied { IfSome result (λ t. (ks : List ℕ) → IsTallied ks self.now →
            IsTallied (ks ++ two_way ∷ []) t) }
        ensures bound { IfSome result (λ t. t.there + t.back ≤ self.now.there + self.now.back + 1) }
    {
        let number = two_way / 2;
        let back = (two_way % 2) as u32;
        let there = 1 - back;
        if number == self.number {
            Some(Tally {
                number,
                there: self.there + there,
                back: self.back + back,
            })
        } else if self.is_even() {
            Some(Tally {
                number,
                there,
                back,
            })
        } else {
            None
        }
    }
}

/// `true` only if, by the two-way numbers of edges, each edge with two different ends occurs as
/// often as its reverse. `false` proves nothing unless the numbers are sorted.
pub fn are_two_way(numbers: &[u128]) -> bool
    requires { length numbers.now ≤ most_edges }
    ensures { IsTrue result → AreTwoWay numbers.now }
{
    let mut tally = Tally {
        number: 0,
        there: 0,
        back: 0,
    };
    for number in numbers {
        match tally.after(*number) {
            None => return false,
            Some(next) => tally = next,
        }
    }
    tally.is_even()
}
