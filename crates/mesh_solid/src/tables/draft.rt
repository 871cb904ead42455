// Tables of some edges.
ghost use Rattle.std.specs.Prelude.{◌≡◌, ◌+◌, ◌≤◌, [], length, All, IfOk, IfErr, OnOk};
ghost use Rattle.ember_width.specs.Broad.{IsBroadPlane};
ghost use Rattle.mesh_certificate.specs.Certificate.Facing.{spot_of};
ghost use Rattle.mesh_solid.specs.Tables.Numberings.{HasEntry};
ghost use Rattle.mesh_solid.specs.Tables.Tables.{IsFault};
ghost use Rattle.mesh_solid.specs.Tables.Drafts.{planes_in, IsDraft, IsDraftBefore, HasFew, HasRoom, IfEdge, IfFace, IfMore};

use crate::tables::face_edge::{FaceEdge, first_or, last_or};
use crate::tables::fault::TableFault;
use crate::tables::keyed::{Keyed, keys_of, start_of};
use crate::tables::numbering::number_of;
use crate::tables::plane_entry::{PlaneEntry, entry_of};
use ember_model::Plane;
use indexmap::IndexSet;
use mesh_certificate::{LineKey, Segment, plane_key};
use mesh_point::SpacePoint;
use std::alloc::Global;

const MOST_EDGES: usize = 2_147_483_647;

/// Tables of some edges. The number of an entry is its place in its set.
#[derive(Drop)]
pub struct TableBuilder {
    pub planes: IndexSet<PlaneEntry>,
    pub lines: IndexSet<LineKey>,
    pub corners: IndexSet<SpacePoint>,
    pub segments: Vec<Segment>,
}

impl TableBuilder {
    /// The tables of no edges.
    pub fn new(alloc: Global) -> TableBuilder
        ensures draft { IsDraft [] result }
        ensures empty { planes_in result ≡ [] }
        ensures few { HasFew result }
    {
        TableBuilder {
            planes: IndexSet::new(alloc),
            lines: IndexSet::new(alloc),
            corners: IndexSet::new(alloc),
            segments: Vec::new(alloc),
        }
    }

    // Adds an edge of the plane with this number from the corner with the number `start`, unless it
    // is one too many. Returns the number of the corner in which it ends.
    fn push(&mut self, plane: u32, start: u32, keyed: &Keyed) -> Result<u32, TableFault>
        requires { HasRoom self.old }
        ensures ok { IfEdge self.old plane start keyed.now (λ all rest.
            OnOk result (IsDraftBefore all rest self.new)) }
        ensures end { IfOk result (λ n. HasEntry self.new.corners.keys n (λ c. spot_of c ≡ spot_of keyed.now.end)) }
        ensures planes { OnOk result (self.new.planes ≡ self.old.planes) }
        ensures lines { OnOk result (length self.new.lines.keys ≤ length self.old.lines.keys + 1) }
        ensures corners { OnOk result (length self.new.corners.keys ≤ length self.old.corners.keys + 1) }
        ensures segments { OnOk result (length self.new.segments.items ≡ length self.old.segments.items + 1) }
        ensures fits { OnOk result (length self.new.segments.items ≤ 2147483647) }
        ensures fault { IfMore self.old (λ all. IfErr result (λ e. IsFault all e)) }
    {
        if self.segments.len() >= MOST_EDGES {
            return Err(TableFault::TooMany);
        }
        let line = number_of(&mut self.lines, keyed.line)?;
        let end = number_of(&mut self.corners, keyed.end)?;
        self.segments.push(Segment {
            plane,
            line,
            start,
            end,
        })?;
        Ok(end)
    }

    /// Adds the edges of a face. Each edge starts in the corner in which the one before it ends.
    pub fn push_face(
        &mut self,
        face: usize,
        support: &Plane,
        edges: &[Plane],
    ) -> Result<(), TableFault>
        requires support { IsBroadPlane support.now }
        requires edges { All IsBroadPlane edges.now }
        requires few { HasFew self.old }
        ensures ok { IfFace self.old face support.now edges.now (λ all more.
            OnOk result (IsDraftBefore all more self.new)) }
        ensures few { OnOk result (HasFew self.new) }
        ensures fault { IfFace self.old face support.now edges.now (λ all more.
            IfErr result (λ e. IsFault all e)) }
    {
        let Some((first, others)) = edges.split_first() else {
            return Ok(());
        };
        let mut before = last_or(others, first);
        let point = start_of(face, support, &before, first)?;
        let number = number_of(&mut self.planes, entry_of(&plane_key(support)))?;
        let mut start = number_of(&mut self.corners, point)?;
        let mut rest = edges;
        while let Some((plane, behind)) = rest.split_first() {
            let edge = FaceEdge {
                face,
                support: *support,
                before,
                plane: *plane,
                after: first_or(behind, first),
            };
            let keyed = keys_of(&edge)?;
            start = self.push(number, start, &keyed)?;
            before = *plane;
            rest = behind;
        }
        Ok(())
    }
}
