// Numbers of statuses.
use ember_run::{FaceFault, LimitKind, Status};

#[test]
fn statuses_have_their_numbers(rt: HostRuntime) {
    assert!(rt; Status::Done.number() == 0);
    assert!(rt; Status::Limit(LimitKind::Triangles, 300_000).number() == 9);
    assert!(rt; Status::FaceRefused(FaceFault::Form).number() == 11);
    assert!(rt; Status::OutOfMemory.number() == 12);
}
