// The nearest binary32, and the bytes of a binary STL.
use mesh_number::{Magnitude, Wide, nearest_binary32};
use mesh_write::{FloatPoint, FloatTriangle, stl_bytes};
use std::test::Fail;

// 2^128 - 2^103 and more is rounded to infinity.
const INFINITE: u128 = 340_282_356_779_733_661_637_539_395_458_142_568_448;

const HEADER: &[u8; 80] =
    b"ember-mesh: rounded from an exact result                                        ";

static NEAREST_FLOATS: [(bool, u128, u128, u128, Option<u32>); 18] = [
    (false, 0, 0, 1, Some(0)),
    (true, 0, 0, 1, Some(0)),
    (false, 0, 1, 1, Some(0x3f80_0000)),
    (true, 0, 1, 3, Some(0xbeaa_aaab)),
    (false, 0, 1, 10, Some(0x3dcc_cccd)),
    (false, 0, 16_777_217, 1, Some(0x4b80_0000)),
    (false, 0, 16_777_219, 1, Some(0x4b80_0002)),
    (true, 0, 33_554_435, 2, Some(0xcb80_0001)),
    (false, 0, 33_554_431, 2, Some(0x4b80_0000)),
    (false, 0, 16_777_217, 1 << 126, Some(0x0c80_0000)),
    (false, 0, 1, 1 << 126, Some(0x0080_0000)),
    (false, 0, 1, (1 << 126) + (1 << 125), Some(0x0055_5555)),
    (false, 0, 1, (1 << 127) - 1, Some(0x0040_0000)),
    (
        false,
        0,
        1_000_000_000_000_000_000_000_000_000_000,
        7,
        Some(0x6fe6_cc54),
    ),
    (false, 0, INFINITE - 1, 1, Some(0x7f7f_ffff)),
    (true, 0, INFINITE, 1, None),
    (false, 5, 0, 7, Some(0x7f36_db6e)),
    (false, 7, 0, 7, None),
];

#[test]
fn nearest_floats(rt: HostRuntime) {
    for &(negative, high, low, d, want) in &NEAREST_FLOATS {
        assert!(rt; 0 < d && d < 1 << 127);
        let size = Magnitude { high, low };
        assert!(rt; nearest_binary32(&Wide { negative, size }, d) == want);
    }
}

#[test]
fn bytes_of_a_triangle(rt: HostRuntime) -> Result<(), Fail> {
    let normal = FloatPoint {
        x: 0,
        y: 0,
        z: 0x3f80_0000,
    };
    let a = FloatPoint { x: 1, y: 2, z: 3 };
    let b = FloatPoint {
        x: 0x0403_0201,
        y: 0,
        z: 0,
    };
    let c = FloatPoint { x: 0, y: 0, z: 9 };
    let Ok(bytes) = stl_bytes(rt.alloc(), &[FloatTriangle { normal, a, b, c }]) else {
        assert!(rt; false);
        return Ok(());
    };
    let mut want = Vec::from_slice(rt.alloc(), HEADER)?;
    want.extend_from_slice(&[1, 0, 0, 0])?;
    want.extend_from_slice(&[0, 0, 0, 0, 0, 0, 0, 0, 0, 0, 128, 63])?;
    want.extend_from_slice(&[1, 0, 0, 0, 2, 0, 0, 0, 3, 0, 0, 0])?;
    want.extend_from_slice(&[1, 2, 3, 4, 0, 0, 0, 0, 0, 0, 0, 0])?;
    want.extend_from_slice(&[0, 0, 0, 0, 0, 0, 0, 0, 9, 0, 0, 0, 0, 0])?;
    assert!(rt; bytes.as_slice() == want.as_slice());
    Ok(())
}
