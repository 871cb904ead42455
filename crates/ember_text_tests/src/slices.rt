// Slices of small files.
use crate::texts::TETRA_TEXT;
use ember_reread::read_faces;
use ember_slice::{SliceFault, slice_text};
use std::alloc::Global;

// Whether the file's faces have this text at that height, or the fault.
fn is_slice(alloc: Global, file: &[u8], at: i32, want: &[u8]) -> Result<bool, SliceFault> {
    if at < -2048 || at > 2047 || file.len() > 65_536 {
        return Ok(false);
    }
    let Ok(faces) = read_faces(alloc, file) else {
        return Ok(false);
    };
    let text = slice_text(alloc, &faces, at)?;
    Ok(text.as_slice() == want)
}

static A_TETRAHEDRON: [(i32, &[u8]); 3] = [
    (
        0,
        b"slice 0\ns 0 0 1 2 1 0 1 2\ns 0 1 1 2 0 0 1 2\ns 1 0 1 2 0 1 1 2\nend 3\n",
    ),
    (1, b"slice 1\nend 0\n"),
    (-1, b"slice -1\nend 0\n"),
];

#[test]
fn a_tetrahedron(rt: HostRuntime) {
    for &(at, want) in &A_TETRAHEDRON {
        assert!(rt; is_slice(rt.alloc(), TETRA_TEXT, at, want) == Ok(true));
    }
}

const ENDLESS: &[u8] = b"ember 1\n\
f 0 -1 0 0 3\n\
e 0 0 -1 0 0 0 0 1\n\
e 0 0 -1 0 0 0 0 1\n\
e 0 0 -1 0 0 0 0 1\n\
end 1\n";

// Faces whose planes go round nothing, in no order.
const LARGE: &[u8] = b"ember 1\n\
f 0 3 -4 -3 4\n\
e -4 5 -3 4 -1 -5 6 8\n\
e 0 -5 -5 3 -8 5 1 7\n\
e -1 -5 2 3 -5 -7 7 4\n\
e 3 3 0 -2 -2 0 9 4\n\
f 30648563 27192868 23037262 -465830319757 6\n\
e 8497391 578063 -17470068 365402029111 8 -8 8 3\n\
e 6681038 -8218026 -4500971 142352465642 0 -8 -5 3\n\
e 18423404 -1273486 23297235 -413813412174 -4 5 -7 6\n\
e -14425659 -15929513 -22186777 -509377019865 4 -7 4 2\n\
e -14838359 3592899 -2978915 245718426288 -3 -4 6 4\n\
e -25450739 -2691972 -31225449 400171721682 -8 5 2 1\n\
f -32287705 -15290115 8969736 360264851809 3\n\
e -7216554 -2459712 -2073154 474499184531 7 1 7 8\n\
e -1601541 -16382481 -9986952 109532781202 1 3 -2 2\n\
e 31754341 -24610270 32958660 -169066173215 7 8 1 5\n\
end 3\n";

const LARGE_AT_1: &[u8] = b"slice 1\n\
s -1273815992461583034 2544163287489863428 9277045536825 6184697024550 -4580672518684813570 -2391676298836912952 768081998021739 512054665347826\n\
end 1\n";

const SMALL: &[u8] = b"ember 1\n\
f 4 -2 -1 24 4\n\
e 0 -4 -5 -10 -4 1 8 5\n\
e -3 -1 4 -16 -7 -6 3 4\n\
e -4 3 2 -18 -1 -7 7 2\n\
e 0 -3 -5 27 9 9 -4 2\n\
f 2452400 -28105266 17227820 -255051681545 6\n\
e 25133172 3339920 -18373857 -382452540128 -3 4 3 9\n\
e -19310873 26837229 22437780 -160949552244 -3 -2 0 9\n\
e -17918268 2013271 -30267808 -251165876699 -1 4 -1 2\n\
e -21295569 2153200 29828092 -101593022404 1 -3 2 9\n\
e 8254690 -27436124 26839203 502191038108 7 -8 0 6\n\
e -4915676 -17065692 21999819 -160765962554 5 3 5 7\n\
f 0 -1 0 7 3\n\
e -1 -1 0 -6 -4 -6 1 2\n\
e 1 0 1 21 -1 -5 -3 9\n\
e 0 0 1 -23 -7 4 4 2\n\
f 0 -5 2 26 3\n\
e 1 1 4 -4 -5 -1 -1 7\n\
e -1 5 -3 25 0 -3 5 4\n\
e 5 0 2 -3 0 -8 -5 7\n\
end 4\n";

const SMALL_BELOW_0: &[u8] = b"slice -1\n\
s 119 50 -8 16 73 52 -4 8\n\
s -505 -54 -5 10 -4 -54 -5 10\n\
end 2\n";

static FACES_OF_ANY_PLANES: [(&[u8], i32, &[u8], Result<bool, SliceFault>); 4] = [
    (LARGE, 1, LARGE_AT_1, Ok(true)),
    (SMALL, -1, SMALL_BELOW_0, Ok(true)),
    (ENDLESS, 0, b"", Err(SliceFault::Endless(1))),
    (ENDLESS, -1, b"slice -1\nend 0\n", Ok(true)),
];

#[test]
fn faces_of_any_planes(rt: HostRuntime) {
    for &(file, at, text, want) in &FACES_OF_ANY_PLANES {
        assert!(rt; is_slice(rt.alloc(), file, at, text) == want);
    }
}
