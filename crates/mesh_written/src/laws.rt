// Certified triangles can be written, and are closed; rounded numbers have their decimals.
ghost use Rattle.std.specs.Prelude.{◌≡◌, ℕ, ◌<◌, List, All, map};
ghost use Rattle.ember_model.specs.declared.plane.Plane.{Plane};
ghost use Rattle.mesh_point.specs.declared.space_point.SpacePoint.{SpacePoint};
ghost use Rattle.mesh_certificate.specs.declared.certificate.triangle.Triangle.{Triangle};
ghost use Rattle.mesh_certificate.specs.Certificate.Certificate.{IsProper};
ghost use Rattle.mesh_number.specs.Number.Fractions.{Fraction};
ghost use Rattle.mesh_write.specs.Vertices.Vertices.{vertices_of, indexed};
ghost use Rattle.mesh_written.specs.Certified.{AllCertified, AllClosedDecimals};
ghost use Rattle.mesh_written.specs.Decimals.{AreNearestUnits, decimal_of, text_of_units, units_of, with_sign_of};
ghost use Rattle.mesh_written.specs.Triangles.{HaveCorners};
ghost use Rattle.mesh_written.specs.Closed.{AreRoundAndClosed, AreDecimalsClosed, AreIndicesClosed};

/// Each corner of proper triangles is in the table, as [`float_triangles`](crate::float_triangles)
/// requires.
pub fn proper_triangles_have_corners()
    ensures { (ps : List Plane) (cs : List SpacePoint) (ts : List Triangle) →
        All (IsProper ps cs) ts → HaveCorners cs ts }
{}

/// Certified triangles lead around their corners and are closed, so what
/// [`float_triangles`](crate::float_triangles) and [`decimal_mesh`](crate::decimal_mesh) make of
/// them is closed.
pub fn certified_triangles_are_closed()
    ensures { AllCertified (λ planes corners ts. AreRoundAndClosed ts) }
{}

/// Triangles that are closed before their corners are rounded to decimals stay closed, by their
/// points and by the vertices of [`decimal_mesh`](crate::decimal_mesh).
pub fn decimal_triangles_are_closed()
    ensures by_points { AllClosedDecimals AreDecimalsClosed }
    ensures by_vertices { AllClosedDecimals (λ ts. AreIndicesClosed (map (indexed (vertices_of ts)) ts)) }
{}

/// A number that is rounded to units of the last place has the decimal that is nearest to it: the
/// text of the units is that of the number, their size is nearest to the number's size in units (of
/// two equally near, the even one), and they have its sign.
pub fn units_have_the_nearest_decimal()
    ensures text { (places : ℕ) (v : Fraction) → text_of_units places (units_of places v) ≡ decimal_of v places }
    ensures nearest { (places : ℕ) (v : Fraction) → 0 < v.denominator →
        AreNearestUnits places v (units_of places v) }
    ensures sign { (places : ℕ) (v : Fraction) → units_of places v ≡ with_sign_of v (units_of places v) }
{}
