// Texts that say no steps, and steps that have no map.
use mesh_place::{StepsFault, map_of_steps};
use mesh_placing::{TextFault, read_steps};
use std::test::Fail;

static REFUSED_TEXTS: [(&[u8], TextFault); 14] = [
    (b"", TextFault::Unknown(0)),
    (b"move=1,2,3;", TextFault::Unknown(1)),
    (b"shift=1,2,3", TextFault::Unknown(0)),
    (b"Move=1,2,3", TextFault::Unknown(0)),
    (b"move=1,2", TextFault::NoNumbers(0)),
    (b"move=1,2,3,4", TextFault::NoNumbers(0)),
    (b"move=1, 2,3", TextFault::NoNumbers(0)),
    (b"mirror=x;scale=1,2", TextFault::NoNumbers(1)),
    (b"mirror=X", TextFault::NoAxis(0)),
    (b"turn=45", TextFault::NoAxis(0)),
    (b"turn=z", TextFault::NoAngle(0)),
    (b"turn=z,1,2", TextFault::NoAngle(0)),
    (b"turn=z,0.0000000000001", TextFault::NoAngle(0)),
    (b"turn=z,1e15", TextFault::NoAngle(0)),
];

#[test]
fn other_texts_say_no_steps(rt: HostRuntime) {
    for &(text, fault) in &REFUSED_TEXTS {
        match read_steps(rt.alloc(), text) {
            Ok(_) => assert!(rt; false),
            Err(said) => assert!(rt; said == fault),
        }
    }
}

static STEPS_WITHOUT_MAPS: [(&[u8], StepsFault); 3] = [
    (b"mirror=x;scale=1,0,1", StepsFault::Flat(1)),
    (b"move=1e5000,0,0", StepsFault::TooLong(0)),
    (b"move=1e-4990,0,0;turn=z,45", StepsFault::TooFine(1)),
];

#[test]
fn some_steps_have_no_map(rt: HostRuntime) -> Result<(), Fail> {
    for &(text, fault) in &STEPS_WITHOUT_MAPS {
        let steps = read_steps(rt.alloc(), text)?;
        match map_of_steps(rt.alloc(), &steps) {
            Ok(_) => assert!(rt; false),
            Err(said) => assert!(rt; said == fault),
        }
    }
    Ok(())
}
