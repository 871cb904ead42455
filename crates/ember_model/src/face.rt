// Faces: a support plane and edge planes.
ghost use Rattle.std.specs.Prelude.{◌≡◌};

use crate::plane::{Plane, Planes};
use std::marker::Model;

/// The points of a support plane that lie on the negative side of every edge plane. The front
/// is the positive side of the support plane.
#[derive(Drop)]
pub struct Face {
    pub support: Plane,
    pub edges: Planes,
}

/// A vector of faces, which contracts see as a list.
#[derive(Drop)]
pub struct FaceList {
    faces: Vec<Face>,
}

impl Model for FaceList {
    ghost use Rattle.std.specs.Prelude.{List};
    ghost use Rattle.ember_model.specs.declared.face.Face.{Face};

    ghost Value = { List Face };

    ghost view = { λ s. s.faces.items };
}

impl FaceList {
    /// The list of these faces.
    pub fn of(faces: Vec<Face>) -> FaceList
        ensures { result ≡ faces.items }
    {
        FaceList { faces }
    }

    /// The faces in order.
    pub fn items(&self) -> &[Face]
        ensures { result.now ≡ self.now }
    {
        &self.faces
    }

    /// The faces as a vector.
    pub fn into_vec(self) -> Vec<Face>
        ensures { result.items ≡ self }
    {
        self.faces
    }
}
