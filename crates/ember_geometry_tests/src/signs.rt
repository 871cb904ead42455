// Signs of integers.
use ember_algebra::{Sign, product_sign, sign_of};

static SIGNS: [(i128, Sign); 3] = [
    (i128::MIN, Sign::Neg),
    (0, Sign::Zero),
    (i128::MAX, Sign::Pos),
];

#[test]
fn signs_at_the_ends_of_the_type(rt: HostRuntime) {
    for &(x, want) in &SIGNS {
        assert!(rt; sign_of(x) == want);
    }
    assert!(rt; product_sign(Sign::Neg, Sign::Neg) == Sign::Pos);
}
