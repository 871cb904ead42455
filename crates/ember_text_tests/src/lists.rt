// Triangles of a file with their lines, lists that lend and give back their vectors, and types that threads share.
use crate::shapes::TETRA;
use ember_model::{Face, FaceList, Lines, Planes, Scene, Soup, Spot, Tri, Tris, Vector};
use std::test::Fail;

#[test]
fn a_file_in_lines(rt: HostRuntime) -> Result<(), Fail> {
    let alloc = rt.alloc();
    let soup = Soup::of(
        Tris::of(vec![in alloc; TETRA[0]]?),
        Lines::of(vec![in alloc; 5]?),
    );
    assert!(rt; soup.tris.items() == [TETRA[0]].as_slice());
    assert!(rt; soup.lines.items() == [5].as_slice());
    Ok(())
}

#[test]
fn a_list_of_faces(rt: HostRuntime) -> Result<(), Fail> {
    let list = FaceList::of(Vec::new(rt.alloc()));
    assert!(rt; list.items().len() == 0);
    assert!(rt; list.into_vec().len() == 0);
    Ok(())
}

fn is_shared<T: Send + Sync>() {}

#[test]
fn threads_may_share_the_types(_rt: HostRuntime) {
    is_shared::<Scene>();
    is_shared::<Soup>();
    is_shared::<Face>();
    is_shared::<Planes>();
    is_shared::<Tri>();
    is_shared::<Vector>();
    is_shared::<Spot>();
}
