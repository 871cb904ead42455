// The generated scene.
use ember_gen::scene_of;
use ember_model::Corner;
use std::test::Fail;

#[test]
fn the_first_box(rt: HostRuntime) -> Result<(), Fail> {
    let scene = scene_of(rt.alloc(), 1)?;
    let tris = scene.tris.items();
    assert!(rt; scene.meshes == 2);
    assert!(rt; tris.len() == 12);
    let first = Corner {
        x: 710,
        y: 382,
        z: 1153,
    };
    let opposite = Corner {
        x: 818,
        y: 458,
        z: 1405,
    };
    assert!(rt; (tris[0].a, tris[0].mesh) == (first, 1));
    assert!(rt; tris[3].b == opposite);
    Ok(())
}

#[test]
fn boxes_with_odd_numbers_come_last(rt: HostRuntime) -> Result<(), Fail> {
    let scene = scene_of(rt.alloc(), 3)?;
    let tris = scene.tris.items();
    assert!(rt; tris.len() == 36);
    assert!(rt; (tris[23].mesh, tris[24].mesh) == (1, 2));
    Ok(())
}
