// Planes with whole coefficients.
ghost use Rattle.std.specs.Prelude.{◌≡◌};

use std::marker::Model;

/// The plane `a x + b y + c z = d`; its front is where the left side is greater. It is valid
/// if each entry of its normal `(a, b, c)` is below 2^25 in size, and its constant `d` below 2^39.
#[derive(Clone, Copy, Debug, PartialEq, Eq)]
pub struct Plane {
    pub a: i64,
    pub b: i64,
    pub c: i64,
    pub d: i64,
}

/// A vector of planes, which contracts see as a list.
#[derive(Drop)]
pub struct Planes {
    planes: Vec<Plane>,
}

impl Model for Planes {
    ghost use Rattle.std.specs.Prelude.{List};
    ghost use Rattle.ember_model.specs.declared.plane.Plane.{Plane};

    ghost Value = { List Plane };

    ghost view = { λ s. s.planes.items };
}

impl Planes {
    /// The list of these planes.
    pub fn of(planes: Vec<Plane>) -> Planes
        ensures { result ≡ planes.items }
    {
        Planes { planes }
    }

    /// The planes in order.
    pub fn items(&self) -> &[Plane]
        ensures { result.now ≡ self.now }
    {
        &self.planes
    }

    /// The planes as a vector.
    pub fn into_vec(self) -> Vec<Plane>
        ensures { result.items ≡ self }
    {
        self.planes
    }
}
