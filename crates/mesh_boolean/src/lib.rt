//! The solid of an expression over mesh files, and the mesh of a document: from their bytes to those
//! of the file that is wanted.
#![tactic(auto)]

mod document;
mod effect;
mod fault;
mod files;
mod floats;
mod images;
mod laws;
mod lying;
mod output;
mod placing;
mod rounding;
mod shown_files;
mod solid;
mod split;
mod text;
mod volumes;
mod wanted;
mod writing;
mod writing_fault;

pub use document::{DocumentFileFault, document_file};
pub use effect::{RoundingEffect, decimal_effect};
pub use fault::BooleanFault;
pub use files::{InputFile, surfaces_in};
pub use laws::{
    closed_files_are_never_open, faces_of_outputs_have_the_meaning,
    triangles_of_outputs_have_the_meaning, written_files_have_the_meaning,
};
pub use lying::lying_if;
pub use output::{KeptDocument, SolidFile};
pub use placing::placed_files;
pub use rounding::decimals;
pub use solid::solid_file;
pub use split::{SplitDecimals, split_decimals};
pub use volumes::sixfold_volumes_of_meshes;
pub use wanted::{FloatFormat, MeshFormat, WantedFile};
pub use writing::OutputMesh;
pub use writing_fault::WritingFault;
