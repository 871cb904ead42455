//! Queries about the leaves of a scene, their answers, and who runs the boxes: an *executor*, a
//! closure that answers each query, made of `answer_alone` or `answer_by_workers`. Also the solid
//! of an expression over a scene.
#![tactic(auto)]

mod broad_faces;
mod executor;
mod faces;
mod outlines;
mod query;
mod solid;

pub use broad_faces::broad_solid_faces;
pub use executor::{answer_alone, answer_by_workers};
pub use faces::{SolidFaces, solid_faces};
pub use outlines::outlines_alone;
pub use query::{
    Answer, Query, RunResult, query_broad_outlines, query_counts, query_faces, query_fills,
    query_pairs, query_texts,
};
pub use solid::{SolidDocument, report_of_solid, solid_of};
