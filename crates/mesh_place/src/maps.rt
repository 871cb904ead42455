// Affine maps, and the steps of which they are made.

pub(crate) mod affine;
pub(crate) mod axes;
pub(crate) mod directions;
pub(crate) mod laws;
pub(crate) mod matrices;
pub(crate) mod orientation;
pub(crate) mod series;
pub(crate) mod step_maps;
pub(crate) mod steps;
pub(crate) mod stepwise;
