// Whether the triangles of files are closed.
use crate::scenes::soup_of;
use crate::texts::{LONG, OPEN_TETRA, TETRA};
use ember_balance::{Loose, balance};
use ember_model::Corner;
use std::alloc::Global;
use std::test::Fail;

fn loose_of(alloc: Global, bytes: &[u8]) -> Result<Option<Loose>, Fail> {
    let soup = soup_of(alloc, bytes, 1)?;
    Ok(balance(alloc, soup.tris.items())?)
}

#[test]
fn the_least_loose_edges_of_files(rt: HostRuntime) -> Result<(), Fail> {
    // The edges of the turned triangle are there twice.
    let turned = Loose {
        from: Corner { x: 0, y: 0, z: 1 },
        to: Corner { x: 0, y: 1, z: 0 },
        there: 2,
        back: 0,
    };
    let long = Loose {
        from: Corner {
            x: -2047,
            y: 2047,
            z: -2047,
        },
        to: Corner {
            x: 2047,
            y: -2047,
            z: 2047,
        },
        there: 1,
        back: 0,
    };
    let rows: [(&[u8], Option<Loose>); 4] = [
        (TETRA, None),
        (b"", None),
        (OPEN_TETRA, Some(turned)),
        (LONG, Some(long)),
    ];
    for (bytes, want) in rows {
        assert!(rt; loose_of(rt.alloc(), bytes)? == want);
    }
    Ok(())
}
