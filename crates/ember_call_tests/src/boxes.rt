// Two boxes, as files and in arrays.

/// The box from 0 to 2.
pub const LOW: &[u8] = b"\
v 0 0 0\nv 2 0 0\nv 2 2 0\nv 0 2 0\nv 0 0 2\nv 2 0 2\nv 2 2 2\nv 0 2 2\n\
f 1 4 3 2\nf 5 6 7 8\nf 1 2 6 5\nf 2 3 7 6\nf 3 4 8 7\nf 4 1 5 8\n";

/// The box from 1 to 3.
pub const HIGH: &[u8] = b"\
v 1 1 1\nv 3 1 1\nv 3 3 1\nv 1 3 1\nv 1 1 3\nv 3 1 3\nv 3 3 3\nv 1 3 3\n\
f 1 4 3 2\nf 5 6 7 8\nf 1 2 6 5\nf 2 3 7 6\nf 3 4 8 7\nf 4 1 5 8\n";

// The bits of the doubles from 0 to 3.
const B0: u64 = 0;

const B1: u64 = 0x3ff0_0000_0000_0000;

const B2: u64 = 0x4000_0000_0000_0000;

const B3: u64 = 0x4008_0000_0000_0000;

/// The vertices of the box from 0 to 2.
pub const LOW_VERTICES: [[u64; 3]; 8] = [
    [B0, B0, B0],
    [B2, B0, B0],
    [B2, B2, B0],
    [B0, B2, B0],
    [B0, B0, B2],
    [B2, B0, B2],
    [B2, B2, B2],
    [B0, B2, B2],
];

/// Those of the box from 1 to 3.
pub const HIGH_VERTICES: [[u64; 3]; 8] = [
    [B1, B1, B1],
    [B3, B1, B1],
    [B3, B3, B1],
    [B1, B3, B1],
    [B1, B1, B3],
    [B3, B1, B3],
    [B3, B3, B3],
    [B1, B3, B3],
];

/// The triangles of either box.
pub const TRIANGLES: [[u32; 3]; 12] = [
    [0, 3, 2],
    [0, 2, 1],
    [4, 5, 6],
    [4, 6, 7],
    [0, 1, 5],
    [0, 5, 4],
    [1, 2, 6],
    [1, 6, 5],
    [2, 3, 7],
    [2, 7, 6],
    [3, 0, 4],
    [3, 4, 7],
];
