// Points of the narrow grid.
use crate::planes::narrow_plane;
use ember_algebra::Sign;
use ember_width::{Narrow, Width};
use std::test::Fail;

static SIDES: [([i16; 4], Sign); 3] = [
    ([1, 1, 1, 2], Sign::Neg),
    ([1, 0, -1, 0], Sign::Zero),
    ([1, 1, 1, 0], Sign::Pos),
];

#[test]
fn a_narrow_meet_and_its_sides(rt: HostRuntime) -> Result<(), Fail> {
    let Some(m) = Narrow::meet(
        &narrow_plane([1, 1, 1, 1]),
        &narrow_plane([1, -1, 0, 0]),
        &narrow_plane([0, 1, -1, 0]),
    ) else {
        return Err(Fail::from("no meet"));
    };
    assert!(rt; [m.x, m.y, m.z, m.w] == [1, 1, 1, 3]);
    for (numbers, want) in &SIDES {
        assert!(rt; Narrow::side(&narrow_plane(*numbers), &m) == *want);
    }
    Ok(())
}

#[test]
fn parallel_planes_dont_meet(rt: HostRuntime) {
    let (unit, parallel) = (narrow_plane([1, 0, 0, 0]), narrow_plane([2, 0, 0, 5]));
    assert!(rt; Narrow::meet(&unit, &parallel, &narrow_plane([0, 1, 0, 0])).is_none());
}
