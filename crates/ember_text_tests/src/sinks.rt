// Bytes that sinks take.
ghost use Rattle.std.specs.Prelude.{◌<◌};

use ember_io::{Calls, MemorySink, StdSink, WriteFault, write_all};
use std::alloc::{AllocError, Global};
use std::process::Abort;
use std::test::Fail;

// A sink of this room that takes so many bytes at once, and whose call of this number fails. No
// call has the number 0.
fn sink(alloc: Global, room: usize, piece: usize, failing: u64) -> Result<MemorySink, AllocError>
    requires { 0 < piece }
{
    MemorySink::new(alloc, room, piece, Calls::of(vec![in alloc; failing]?))
}

// The sink answers so to bytes, and has taken these in all.
fn check(
    rt: &impl Abort,
    sink: &mut MemorySink,
    bytes: &[u8],
    answer: Result<(), WriteFault>,
    taken: &[u8],
) {
    assert!(rt; write_all(sink, bytes) == answer);
    assert!(rt; sink.bytes() == taken);
}

const LINES: &[u8] = b"one line..two lines.three linefour line.five line.six line..";

// Its seventh call is the flush.
static A_SINK_TAKES_WHOLE_PIECES_UP_TO_ITS_FAULT: [(u64, &[u8]); 2] = [
    (5, b"one line..two lines.three linefour line."),
    (7, LINES),
];

#[test]
fn a_sink_takes_whole_pieces_up_to_its_fault(rt: HostRuntime) -> Result<(), Fail> {
    let alloc = rt.alloc();
    for &(failing, taken) in &A_SINK_TAKES_WHOLE_PIECES_UP_TO_ITS_FAULT {
        let mut sink = sink(alloc, 100, 10, failing)?;
        check(&rt, &mut sink, LINES, Err(WriteFault), taken);
    }
    Ok(())
}

#[test]
fn a_sink_takes_bytes_up_to_its_room(rt: HostRuntime) -> Result<(), Fail> {
    let mut sink = sink(rt.alloc(), 7, 3, 0)?;
    check(&rt, &mut sink, b"12345", Ok(()), b"12345");
    check(&rt, &mut sink, b"678", Err(WriteFault), b"1234567");
    Ok(())
}

#[test]
fn a_stream_of_the_system_takes_bytes(rt: HostRuntime) -> Result<(), Fail> {
    let mut out = StdSink::new(std::io::writer(&rt));
    assert!(rt; write_all(&mut out, b"written\n") == Ok(()));
    let mut file = StdSink::new(std::fs::create(&rt, "taken.txt")?);
    assert!(rt; write_all(&mut file, b"written\n") == Ok(()));
    drop(file);
    let text = std::fs::read(&rt, "taken.txt")?;
    assert!(rt; text.as_slice() == b"written\n".as_slice());
    Ok(())
}
