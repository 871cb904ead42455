// Whether the written edges of a face are its outline.

mod edges;
mod fault;
mod law;
mod outline;
mod round;
mod sides;

pub use fault::OutlineFault;
pub use law::round_faces_are_outlined;
pub use outline::check_outline;
