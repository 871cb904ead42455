// Boxes and cylinders as surfaces.

pub(crate) mod boxes;
pub(crate) mod cylinders;
pub(crate) mod fault;
pub(crate) mod laws;
