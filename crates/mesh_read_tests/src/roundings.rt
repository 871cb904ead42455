// The nearest whole numbers and decimals, with ties.
use mesh_number::{Magnitude, Wide, nearest, put_decimal};
use std::test::Fail;

static NEAREST_WHOLE_NUMBERS: [(u64, u64, u128); 8] = [
    (0, 3, 0),
    (1, 2, 0),
    (3, 2, 2),
    (5, 2, 2),
    (5, 3, 2),
    (4, 3, 1),
    (7, 1, 7),
    (18446744073709551615, 2, 9223372036854775808),
];

#[test]
fn nearest_whole_numbers(rt: HostRuntime) {
    for &(n, d, want) in &NEAREST_WHOLE_NUMBERS {
        assert!(rt; 0 < d);
        let n = Magnitude {
            high: 0,
            low: u128::from(n),
        };
        assert!(rt; nearest(&n, u128::from(d)) == want);
    }
    let n = Magnitude { high: 3, low: 5 };
    assert!(rt; nearest(&n, 1 << 70) == 3 << 58);
}

static DECIMALS_WITH_TIES: [(bool, u64, u64, &[u8]); 9] = [
    (false, 0, 1, b"0"),
    (true, 0, 1, b"0"),
    (true, 1, 2000, b"0"),
    (true, 1, 1999, b"-0.001"),
    (false, 3, 2000, b"0.002"),
    (false, 1, 3, b"0.333"),
    (true, 2, 3, b"-0.667"),
    (false, 5, 4, b"1.25"),
    (false, 70, 7, b"10"),
];

#[test]
fn decimals_with_ties(rt: HostRuntime) -> Result<(), Fail> {
    for &(negative, low, d, want) in &DECIMALS_WITH_TIES {
        assert!(rt; 0 < d);
        let size = Magnitude {
            high: 0,
            low: u128::from(low),
        };
        let mut text = Vec::new(rt.alloc());
        put_decimal(&Wide { negative, size }, u128::from(d), 3, &mut text)?;
        assert!(rt; text.as_slice() == want);
    }
    Ok(())
}
