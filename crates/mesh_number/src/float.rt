// Floats nearest to fractions.

mod binary32;
mod scaling;

pub use binary32::nearest_binary32;
