// The triangles of faces with many corners.
use mesh_read::{Facet, push_fan};
use std::test::Fail;

static TRIANGLES_OF_FACES: [(&[u32], &[[u32; 3]]); 4] = [
    (&[], &[]),
    (&[7, 8], &[]),
    (&[1, 2, 3], &[[1, 2, 3]]),
    (&[5, 4, 9, 1], &[[5, 4, 9], [5, 9, 1]]),
];

#[test]
fn triangles_of_faces(rt: HostRuntime) -> Result<(), Fail> {
    for &(corners, wanted) in &TRIANGLES_OF_FACES {
        let mut facets = Vec::new(rt.alloc());
        push_fan(&mut facets, corners, 6)?;
        assert!(rt; facets.len() == wanted.len());
        for (facet, corners) in facets.iter().zip(wanted) {
            let want = Facet {
                corners: *corners,
                place: 6,
            };
            assert!(rt; *facet == want);
        }
    }
    Ok(())
}
