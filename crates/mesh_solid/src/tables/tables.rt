// The tables of faces.
ghost use Rattle.std.specs.Prelude.{All, IfOk, IfErr};
ghost use Rattle.mesh_solid.specs.Tables.Edges.{face_edges_of, IsBroadFace};
ghost use Rattle.mesh_solid.specs.Tables.Tables.{IsFault, IsPlaneOf, AreTables};
ghost use Rattle.mesh_solid.specs.Tables.Drafts.{planes_in, IsDraft};

use crate::tables::draft::TableBuilder;
use crate::tables::fault::TableFault;
use crate::tables::plane_entry::planes_of;
use ember_model::{Face, Plane};
use mesh_certificate::{LineKey, Segment};
use mesh_point::SpacePoint;
use std::alloc::Global;

/// The planes, lines and corners of faces, each once, and the edges of the faces as segments
/// between them by their numbers.
#[derive(Drop)]
pub struct Tables {
    pub planes: Vec<Plane>,
    pub lines: Vec<LineKey>,
    pub corners: Vec<SpacePoint>,
    pub segments: Vec<Segment>,
}

// The draft of all edges of the faces.
fn draft_of(alloc: Global, faces: &[Face]) -> Result<TableBuilder, TableFault>
    requires { All IsBroadFace faces.now }
    ensures ok { IfOk result (λ d. IsDraft (face_edges_of 0 faces.now) d) }
    ensures used { IfOk result (λ d. All (IsPlaneOf (face_edges_of 0 faces.now)) (planes_in d)) }
    ensures fault { IfErr result (λ e. IsFault (face_edges_of 0 faces.now) e) }
{
    let mut draft = TableBuilder::new(alloc);
    for (number, face) in faces.iter().enumerate() {
        draft.push_face(number, &face.support, face.edges.items())?;
    }
    Ok(draft)
}

/// The tables of the faces: their planes, lines and corners, each once, and their edges in order,
/// by numbers. It is a fault if an edge has no line, or no corner within the limits of a space
/// point, or if there are too many edges: see [`TableFault`].
pub fn tables_of(alloc: Global, faces: &[Face]) -> Result<Tables, TableFault>
    requires { All IsBroadFace faces.now }
    ensures tables { IfOk result (λ t. AreTables (face_edges_of 0 faces.now) t) }
    ensures fault { IfErr result (λ e. IsFault (face_edges_of 0 faces.now) e) }
{
    let TableBuilder {
        planes,
        lines,
        corners,
        segments,
    } = draft_of(alloc, faces)?;
    let line_list = Vec::from_slice(alloc, lines.as_slice())?;
    drop(lines);
    let corner_list = Vec::from_slice(alloc, corners.as_slice())?;
    drop(corners);
    Ok(Tables {
        planes: planes_of(alloc, planes.as_slice())?,
        lines: line_list,
        corners: corner_list,
        segments,
    })
}
