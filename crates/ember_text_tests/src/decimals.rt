// Coordinates of files.
use ember_dec::{DecFault, coordinate};

static DECIMALS: [(&[u8], u8, Result<i32, DecFault>); 12] = [
    (b"1.25", 2, Ok(125)),
    (b"1.25", 1, Err(DecFault::Fraction)),
    (b"20.47", 2, Ok(2047)),
    (b"20.48", 2, Err(DecFault::Range)),
    (b"5000.5", 0, Err(DecFault::Fraction)),
    (b"-0.000", 0, Ok(0)),
    (b"+3", 0, Ok(3)),
    (b"1.", 0, Ok(1)),
    (b".5", 1, Ok(5)),
    (b"1e2", 0, Err(DecFault::Malformed)),
    (b".", 0, Err(DecFault::Malformed)),
    (b"", 0, Err(DecFault::Malformed)),
];

#[test]
fn decimals(rt: HostRuntime) {
    for &(text, places, want) in &DECIMALS {
        assert!(rt; places <= 3);
        assert!(rt; coordinate(text, places) == want);
    }
}
