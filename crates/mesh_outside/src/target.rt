// Places where a file is written so that its name holds either all of the new bytes or what it held
// before (`Target`). The caller hands them in, and each counts its faults.

mod file_target;
mod map_files;
mod memory_target;
mod several;
mod target;

pub use file_target::FileTarget;
pub use memory_target::MemoryTarget;
pub use several::{NamedFile, Unwritten, write_each};
pub use target::{BeginEnd, Target, WriteEnd, write_whole};
