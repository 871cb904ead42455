// Certified triangles wind as the faces that they cut up.

mod law;

pub use law::certified_triangles_wind_as_faces;
