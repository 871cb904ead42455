// What readers find in the texts that are written.
ghost use Rattle.std.specs.Prelude.{◌≡◌, ℕ, ◌≤◌, ◌^◌, List, length, Ok};
ghost use Rattle.mesh_write.specs.Text.Texts.{text_of};
ghost use Rattle.mesh_write.specs.declared.text.format.TextFormat.TheVariants.{Obj, Ply, Off};
ghost use Rattle.mesh_read.specs.Off.ReadOff.{read_off_of};
ghost use Rattle.mesh_ply.specs.ReadPly.{read_ply_of};
ghost use Rattle.mesh_read.specs.Surface.Surfaces.{Content};
ghost use Rattle.mesh_write.specs.Reading.Readings.{AreReadable, IsReadAs};
ghost use Rattle.mesh_write.specs.declared.vertices.point.DecimalPoint.{DecimalPoint};
ghost use Rattle.mesh_write.specs.declared.vertices.point.IndexedTriangle.{IndexedTriangle};
ghost use Rattle.mesh_read.specs.Wavefront.ReadWavefront.{read_wavefront_of};

/// An OFF text that is written from decimals, read again, has these points, in value, and these
/// triangles, both in order.
pub fn off_texts_are_read()
    ensures { (places : ℕ) (ps : List DecimalPoint) (ts : List IndexedTriangle) → AreReadable places ps ts →
        (content : Content) × (read_off_of (text_of Off places ps ts) ≡ Ok content)
        × IsReadAs places ps ts content }
{}

/// The same of an OBJ text.
pub fn obj_texts_are_read()
    ensures { (places : ℕ) (ps : List DecimalPoint) (ts : List IndexedTriangle) → AreReadable places ps ts →
        (content : Content) × (read_wavefront_of (text_of Obj places ps ts) ≡ Ok content)
        × IsReadAs places ps ts content }
{}

/// The same of a PLY text with at most 10^15 points and 10^15 triangles: a reader takes a larger
/// count for 10^15.
pub fn ply_texts_are_read()
    ensures { (places : ℕ) (ps : List DecimalPoint) (ts : List IndexedTriangle) → AreReadable places ps ts →
        length ps ≤ 10 ^ 15 → length ts ≤ 10 ^ 15 →
        (content : Content) × (read_ply_of (text_of Ply places ps ts) ≡ Ok content)
        × IsReadAs places ps ts content }
{}
