// A run of three boxes by one worker.
use std::test::Fail;
use steal_core::{Event, State};

#[test]
fn one_worker_ends_three_boxes(rt: HostRuntime) -> Result<(), Fail> {
    let mut state = State::new(rt.alloc(), 1, 3)?;
    assert!(rt; state.apply(Event::Push { by: 0, path: 1 }));
    assert!(rt; state.apply(Event::Finish { by: 0, path: 2 }));
    assert!(rt; state.apply(Event::Pop { by: 0 }));
    assert!(rt; state.apply(Event::Finish { by: 0, path: 3 }));
    assert!(rt; !state.apply(Event::Pop { by: 0 }));
    Ok(())
}
