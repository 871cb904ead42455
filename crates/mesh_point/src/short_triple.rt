// Points in short numbers.
ghost use Rattle.mesh_point.specs.ShortTriples.{IsShortTriple};

/// Two coordinates times a weight, below 2^123, and the weight, from 1 to below 2^90.
#[derive(Clone, Copy)]
pub struct ShortTriple {
    pub x: u128,
    pub y: u128,
    pub w: u128,
    ghost valid: { IsShortTriple x y w },
}
