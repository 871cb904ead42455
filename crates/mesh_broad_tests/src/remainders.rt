// Remainders in lowest terms. What is expected was computed outside of this program.
use mesh_broad::{Remainders, reduced};

const ROWS: [(Remainders, Remainders); 8] = [
    // a corner of the grid
    (
        Remainders {
            x: 0,
            y: 0,
            z: 0,
            w: 1,
        },
        Remainders {
            x: 0,
            y: 0,
            z: 0,
            w: 1,
        },
    ),
    // one with a great weight
    (
        Remainders {
            x: 0,
            y: 0,
            z: 0,
            w: 7975367974687734572669798827746656250,
        },
        Remainders {
            x: 0,
            y: 0,
            z: 0,
            w: 1,
        },
    ),
    // halves
    (
        Remainders {
            x: 2,
            y: 4,
            z: 6,
            w: 8,
        },
        Remainders {
            x: 1,
            y: 2,
            z: 3,
            w: 4,
        },
    ),
    // lowest already
    (
        Remainders {
            x: 1,
            y: 2,
            z: 3,
            w: 7,
        },
        Remainders {
            x: 1,
            y: 2,
            z: 3,
            w: 7,
        },
    ),
    // a divisor of 70 bits
    (
        Remainders {
            x: 3541774862152233910167,
            y: 5902958103587056516945,
            z: 8264141345021879123723,
            w: 1329227995784883996890641193435661233,
        },
        Remainders {
            x: 3,
            y: 5,
            z: 7,
            w: 1125899906842597,
        },
    ),
    // the greatest remainders
    (
        Remainders {
            x: 7975367974687734572669798827746656249,
            y: 7975367974687734572669798827746656248,
            z: 7975367974687734572669798827746656247,
            w: 7975367974687734572669798827746656250,
        },
        Remainders {
            x: 7975367974687734572669798827746656249,
            y: 7975367974687734572669798827746656248,
            z: 7975367974687734572669798827746656247,
            w: 7975367974687734572669798827746656250,
        },
    ),
    // each two have a divisor more
    (
        Remainders {
            x: 110680464442257309696,
            y: 184467440737095516160,
            z: 276701161105643274240,
            w: 553402322211286548480,
        },
        Remainders {
            x: 6,
            y: 10,
            z: 15,
            w: 30,
        },
    ),
    // powers of two
    (
        Remainders {
            x: 3802951800684688204490109616128,
            y: 0,
            z: 1267650600228229401496703205376,
            w: 5070602400912917605986812821504,
        },
        Remainders {
            x: 3,
            y: 0,
            z: 1,
            w: 4,
        },
    ),
];

#[test]
fn remainders(rt: HostRuntime) {
    for (from, want) in &ROWS {
        assert!(rt; reduced(from) == *want);
    }
}
