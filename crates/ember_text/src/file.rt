// The first and the last line of a face file.
ghost use Rattle.std.specs.Prelude.{◌≡◌, ◌++◌, IfOk, OnOk};
ghost use Rattle.ember_model.specs.FaceFiles.{header, ending};

use ember_model::OutOfMemory;
use itoa::Buffer;
use std::alloc::Global;

/// The beginning of a face file: its header. The only error is out-of-memory.
pub fn begin_file(alloc: Global) -> Result<Vec<u8>, OutOfMemory>
    ensures { IfOk result (λ text. text.items ≡ header) }
{
    Vec::from_slice(alloc, b"ember 1\n")
}

/// Appends the last line of a face file, with the number of its faces. The only error is
/// out-of-memory.
pub fn end_file(count: u32, out: &mut Vec<u8>) -> Result<(), OutOfMemory>
    ensures { OnOk result (out.new.items ≡ out.old.items ++ ending count) }
{
    put_ending(u64::from(count), out)
}

/// Appends the last line, with this number of faces. The only error is out-of-memory.
pub fn put_ending(count: u64, out: &mut Vec<u8>) -> Result<(), OutOfMemory>
    ensures { OnOk result (out.new.items ≡ out.old.items ++ ending count) }
{
    let mut buffer = Buffer::new();
    out.extend_from_slice(b"end ")?;
    out.extend_from_slice(buffer.format(count).as_bytes())?;
    out.push(b'\n')?;
    Ok(())
}
