//! The text of faces, and the face file of the written regions: the document. `text_of_faces`
//! (texts.rt) makes the text of a leaf, face by face (face.rt, edges.rt, line.rt), and
//! `document_of` (whole.rt) puts the texts of all leaves together. `outline_faces` (outline.rt)
//! makes the faces that the text of a leaf holds, and `outline_faces_on` such faces on each grid.
//! README.md says which definitions to read first.
#![tactic(auto)]

mod edges;
mod face;
mod file;
mod line;
mod outline;
mod texts;
mod whole;

pub use face::face_text;
pub use file::{begin_file, end_file};
pub use outline::{outline_faces, outline_faces_on};
pub use texts::{FacesText, text_of_faces};
pub use whole::{document, document_of, face_count};
