// Reads a mesh file of any format, and says why a file is refused.

mod fault;
mod phrases;
mod reading;
mod reason;
mod reason_parts;
mod unread;

pub use fault::FileFault;
pub use reading::read_file;
pub use reason::put_reason;
pub use unread::UnreadFormat;
