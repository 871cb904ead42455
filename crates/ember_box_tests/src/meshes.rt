// From the triangles of files to a scene.
use crate::scenes::{scene_of_files, soup_of};
use crate::texts::{LONG, TETRA};
use ember_mesh::{MeshFault, balanced, check};
use ember_model::{Corner, Scene, Tri};
use std::test::Fail;

const O: Corner = Corner { x: 0, y: 0, z: 0 };

const X: Corner = Corner { x: 1, y: 0, z: 0 };

const Y: Corner = Corner { x: 0, y: 1, z: 0 };

const Z: Corner = Corner { x: 0, y: 0, z: 1 };

// The triangles of the tetrahedron.
static TRIANGLES: [Tri; 4] = [
    Tri {
        a: O,
        b: Y,
        c: X,
        mesh: 1,
    },
    Tri {
        a: O,
        b: X,
        c: Z,
        mesh: 1,
    },
    Tri {
        a: O,
        b: Z,
        c: Y,
        mesh: 1,
    },
    Tri {
        a: X,
        b: Y,
        c: Z,
        mesh: 1,
    },
];

fn is_tetrahedron(s: &Scene) -> bool {
    let tris = s.tris.items();
    if tris.len() != 4 {
        return false;
    }
    for i in 0..4 {
        if tris[i] != TRIANGLES[i] {
            return false;
        }
    }
    s.meshes == 1
}

#[test]
fn a_tetrahedron_becomes_a_scene(rt: HostRuntime) -> Result<(), Fail> {
    let scene = scene_of_files(rt.alloc(), &[TETRA])?;
    assert!(rt; is_tetrahedron(&scene));
    Ok(())
}

#[test]
fn a_lone_triangle_is_refused_and_handed_back(rt: HostRuntime) -> Result<(), Fail> {
    let soup = soup_of(rt.alloc(), LONG, 1)?;
    let Err((solid, fault)) = balanced(rt.alloc(), check(soup)) else {
        return Err(Fail::from("no fault"));
    };
    assert!(rt; matches!(fault, MeshFault::Unbalanced(_)));
    assert!(rt; solid.tris.items().len() == 1);
    assert!(rt; solid.lines.items() == [4].as_slice());
    Ok(())
}
