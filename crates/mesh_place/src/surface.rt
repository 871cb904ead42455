// Surfaces under affine maps.

pub(crate) mod image;
pub(crate) mod transformed;
