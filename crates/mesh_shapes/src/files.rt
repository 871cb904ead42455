// The files of the words that say shapes.
ghost use Rattle.std.specs.Prelude.{IfOk, OnOk, MatchOption, map, string_bytes};
ghost use Rattle.ember_io.specs.Files.{named};
ghost use Rattle.mesh_shapes.specs.Shapes.{IsShapeFile, IsNoFile, IsNext, AreShapeFiles};

use crate::shapes::shape_text;
use ember_io::FileSet;
use mesh_placing::shape_of;
use std::alloc::{AllocError, Global};

// The text of the shape that a word says, if it says one that has a text.
fn word_text(alloc: Global, word: &str) -> Result<Option<Vec<u8>>, AllocError>
    ensures { IfOk result (λ text. MatchOption text (IsNoFile word.now)
        (λ text. IsShapeFile (word.now, text.items))) }
{
    match shape_of(word.as_bytes()) {
        Ok(Some(shape)) => {
            let text = shape_text(alloc, &shape)?;
            Ok(text)
        }
        _ => Ok(None),
    }
}

// Appends the file of the shape that a word says, if it has one.
fn push_file(
    alloc: Global,
    word: &String,
    files: &mut Vec<(String, Vec<u8>)>,
) -> Result<(), AllocError>
    ensures { OnOk result (IsNext (named files.old.items) (named files.new.items) (string_bytes word.now)) }
{
    match word_text(alloc, word)? {
        Some(text) => {
            files.push((word.clone()?, text))?;
            Ok(())
        }
        None => Ok(()),
    }
}

/// The files of the shapes that the words say: the name of a file is the word, and its bytes are the
/// text of the shape. The one error is out-of-memory.
pub fn shape_files(alloc: Global, words: &[String]) -> Result<FileSet, AllocError>
    ensures { IfOk result (AreShapeFiles (map string_bytes words.now)) }
{
    let mut files = Vec::new(alloc);
    for word in words {
        push_file(alloc, word, &mut files)?;
    }
    Ok(FileSet::of(files))
}
