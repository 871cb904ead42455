// Numbers of mesh files: decimals, binary floats and integers.
ghost use Rattle.std.specs.Prelude.{◌^◌, ◌<◌};

use mesh_number::{Number, binary32, binary64, floor_times, integer, is_below_limit, read_decimal};

const GREATEST: u64 = (1 << 41) - 1;

// The floor of a multiple of a number, or none if there is no number or it is too large.
fn floor_of(number: Option<Number<'_>>, factor: u64) -> Option<i128>
    requires { factor < 2 ^ 41 }
{
    match number {
        Some(number) => floor_times(&number, factor),
        None => None,
    }
}

static FLOORS_OF_DECIMALS: [(&[u8], u64, Option<i128>); 10] = [
    (b"1.25", 1, Some(1)),
    (b"-1.25", 2000, Some(-2500)),
    (b"-1.25", 1, Some(-2)),
    (b"+.5", 1, Some(0)),
    (b"-.5", 1, Some(-1)),
    (b"7.", 2000, Some(14_000)),
    (b"1e3", 1, Some(1000)),
    (b"1.5E-3", 2000, Some(3)),
    (b"-1.5e-3", 1, Some(-1)),
    (b"0.0001e+4", 1, Some(1)),
];

#[test]
fn floors_of_decimals(rt: HostRuntime) {
    for &(text, factor, want) in &FLOORS_OF_DECIMALS {
        assert!(rt; factor <= GREATEST);
        assert!(rt; floor_of(read_decimal(text), factor) == want);
    }
}

static FLOORS_OF_LONG_AND_LARGE_DECIMALS: [(&[u8], u64, Option<i128>); 12] = [
    (b"12345.678e2", GREATEST, Some(2_714_843_302_754_435_857)),
    (
        b"999999999999999.9999",
        GREATEST,
        Some(2_199_023_255_550_999_999_780_097_674),
    ),
    (
        b"123456789012345678901234567890e-20",
        GREATEST,
        Some(2_714_843_500_938_013_207_483),
    ),
    (
        b"-123456789012345678901234567890e-20",
        7,
        Some(-8_641_975_231),
    ),
    (b"1e00012", 1, Some(1_000_000_000_000)),
    (
        b"100000000000000000000e-6",
        2000,
        Some(200_000_000_000_000_000),
    ),
    (
        b"0.99999999999999999999999999999999",
        GREATEST,
        Some(2_199_023_255_550),
    ),
    (b"0e9999", 1, Some(0)),
    (b"1e-9999", GREATEST, Some(0)),
    (b"-1e-9999", GREATEST, Some(-1)),
    (b"1e15", 1, None),
    (b"-1e9999", 1, None),
];

#[test]
fn floors_of_long_and_large_decimals(rt: HostRuntime) {
    for &(text, factor, want) in &FLOORS_OF_LONG_AND_LARGE_DECIMALS {
        assert!(rt; factor <= GREATEST);
        assert!(rt; floor_of(read_decimal(text), factor) == want);
    }
}

static TEXTS_THAT_ARE_NO_DECIMALS: [&[u8]; 16] = [
    b"", b".", b"-", b"+.", b"e5", b".e5", b"1e", b"1e+", b"1e10000", b"1.2.3", b"1e5.0", b"--1",
    b"nan", b"inf", b"0x10", b"1E5e3",
];

#[test]
fn texts_that_are_no_decimals(rt: HostRuntime) {
    for &text in &TEXTS_THAT_ARE_NO_DECIMALS {
        assert!(rt; read_decimal(text).is_none());
    }
}

#[test]
fn floors_of_binary_numbers(rt: HostRuntime) {
    let rows: [(Option<Number<'_>>, u64, Option<i128>); 18] = [
        (binary32(0x3fc0_0000), 1, Some(1)),
        (binary32(0xbfc0_0000), 1, Some(-2)),
        (binary32(0xbfc0_0000), GREATEST, Some(-3_298_534_883_327)),
        (binary32(0x0000_0001), GREATEST, Some(0)),
        (binary32(0x8000_0001), 1, Some(-1)),
        (binary32(0x4049_0fdb), GREATEST, Some(6_908_435_496_956)),
        (binary32(0xc049_0fdb), GREATEST, Some(-6_908_435_496_957)),
        (
            binary32(0x5863_5fa9),
            GREATEST,
            Some(2_199_023_226_944_135_166_955_618_304),
        ),
        (binary32(0x8000_0000), 1, Some(0)),
        (binary32(0x7f7f_ffff), 1, None),
        (binary32(0x7f80_0000), 1, None),
        (binary32(0xffc0_0000), 1, None),
        (binary64(0x3fb9_9999_9999_999a), 2000, Some(200)),
        (binary64(0xbfb9_9999_9999_999a), 2000, Some(-201)),
        (binary64(0x7ff0_0000_0000_0000), 1, None),
        (Some(integer(-7)), 3, Some(-21)),
        (
            Some(integer(999_999_999_999_999)),
            1,
            Some(999_999_999_999_999),
        ),
        (Some(integer(i64::MIN)), 1, None),
    ];
    for (number, factor, want) in rows {
        assert!(rt; factor <= GREATEST);
        assert!(rt; floor_of(number, factor) == want);
    }
    assert!(rt; is_below_limit(&integer(-999_999_999_999_999)));
    assert!(rt; !is_below_limit(&integer(1_000_000_000_000_000)));
}
