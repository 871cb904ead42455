// The scene as JSON.
ghost use Rattle.std.specs.Prelude.{◌≡◌, ◌++◌, length, string_bytes, IfOk, OnOk};
ghost use Rattle.std.specs.Fmt.{signed_decimal};
ghost use Rattle.json.specs.Print.{quoted};
ghost use Rattle.mesh_grid.specs.Snap.Steps.{IsStep};
ghost use Rattle.mesh_scene.specs.SceneFile.Texts.{move_text, count_text, counts_text, name_text, next_text, offset_text, files_of, file_text, separator, files_text, grid_text, IsSceneText};

use crate::scene::Counts;
use crate::scene_file::numbers::{lowest, put_fraction};
use ember_model::OutOfMemory;
use ember_words::Text;
use itoa::Buffer;
use mesh_grid::{Grid, GridStep, Length, Offset};
use mesh_number::put_shifted;
use serde_json::Value;
use std::alloc::Global;

// The name as a string of JSON.
fn quoted(alloc: Global, name: &Text) -> Result<String, OutOfMemory>
    ensures { IfOk result (λ text. string_bytes text ≡ quoted name.now) }
{
    let value = Value::try_from_str(alloc, name.as_str())?;
    value.to_string(alloc)
}

// Appends the beginning of a file's object.
#[tactic(auto, unfolding(crate::specs::SceneFile::Texts::name_text))]
fn put_name(alloc: Global, name: &Text, text: &mut Vec<u8>) -> Result<(), OutOfMemory>
    ensures { OnOk result (text.new.items ≡ text.old.items ++ name_text name.now) }
{
    let quoted = quoted(alloc, name)?;
    text.extend_from_slice(b"{\"file\": ")?;
    text.extend_from_slice(quoted.as_bytes())
}

// Appends a key and its number after the value before them.
#[tactic(auto, unfolding(crate::specs::SceneFile::Texts::count_text))]
fn put_count(key: &[u8], count: u64, text: &mut Vec<u8>) -> Result<(), OutOfMemory>
    ensures { OnOk result (text.new.items ≡ text.old.items ++ count_text key.now count) }
{
    let mut buffer = Buffer::new();
    text.extend_from_slice(b", \"")?;
    text.extend_from_slice(key)?;
    text.extend_from_slice(b"\": ")?;
    text.extend_from_slice(buffer.format(count).as_bytes())
}

#[tactic(auto, unfolding(crate::specs::SceneFile::Texts::counts_text))]
fn put_counts(counts: &Counts, text: &mut Vec<u8>) -> Result<(), OutOfMemory>
    ensures { OnOk result (text.new.items ≡ text.old.items ++ counts_text counts.now) }
{
    put_count(b"triangles", counts.triangles, text)?;
    put_count(b"vanished", counts.vanished, text)?;
    put_count(b"without area", counts.flat, text)
}

fn put_whole(number: i128, text: &mut Vec<u8>) -> Result<(), OutOfMemory>
    ensures { OnOk result (text.new.items ≡ text.old.items ++ signed_decimal number) }
{
    let mut buffer = Buffer::new();
    text.extend_from_slice(buffer.format(number).as_bytes())
}

// Appends the number after the one before it.
#[tactic(auto, unfolding(crate::specs::SceneFile::Texts::next_text))]
fn put_next(number: i128, text: &mut Vec<u8>) -> Result<(), OutOfMemory>
    ensures { OnOk result (text.new.items ≡ text.old.items ++ next_text number) }
{
    text.extend_from_slice(b", ")?;
    put_whole(number, text)
}

// Appends the three numbers between brackets.
fn put_offset(offset: &Offset, text: &mut Vec<u8>) -> Result<(), OutOfMemory>
    ensures { OnOk result (text.new.items ≡ text.old.items ++ offset_text offset.now) }
{
    text.extend_from_slice(b"[")?;
    put_whole(offset.x, text)?;
    put_next(offset.y, text)?;
    put_next(offset.z, text)?;
    text.extend_from_slice(b"]")
}

fn put_move(moved: &Length, text: &mut Vec<u8>) -> Result<(), OutOfMemory>
    ensures { OnOk result (text.new.items ≡ text.old.items ++ move_text moved.now) }
{
    put_shifted(false, moved.size, moved.places, text)
}

// Appends the object of a file.
fn put_file(
    alloc: Global,
    name: &Text,
    counts: &Counts,
    moved: &Length,
    text: &mut Vec<u8>,
) -> Result<(), OutOfMemory>
    ensures { OnOk result (text.new.items ≡ text.old.items ++ file_text (name.now, (counts.now, moved.now))) }
{
    put_name(alloc, name, text)?;
    put_counts(counts, text)?;
    text.extend_from_slice(b", \"greatest move\": \"")?;
    put_move(moved, text)?;
    text.extend_from_slice(b"\"}")
}

// What stands before the file with this index.
fn separator(index: usize) -> &'static [u8]
    ensures { result.now ≡ separator index }
{
    if index == 0 { b"\n    " } else { b",\n    " }
}

// Appends the objects of the files, each in a line of its own.
fn put_files(
    alloc: Global,
    names: &[Text],
    counts: &[Counts],
    moves: &[Length],
    text: &mut Vec<u8>,
) -> Result<(), OutOfMemory>
    requires counts { length counts.now ≡ length names.now }
    requires moves { length moves.now ≡ length names.now }
    ensures { OnOk result (text.new.items ≡ text.old.items ++ files_text (files_of names.now counts.now moves.now)) }
{
    for index in 0..names.len() {
        text.extend_from_slice(separator(index))?;
        put_file(alloc, &names[index], &counts[index], &moves[index], text)?;
    }
    Ok(())
}

// Appends the members before the files. The step is in lowest terms.
fn put_grid(step: &GridStep, offset: &Offset, text: &mut Vec<u8>) -> Result<(), OutOfMemory>
    ensures { OnOk result (text.new.items ≡ text.old.items ++ grid_text step.now offset.now) }
{
    text.extend_from_slice(b"{\n  \"step\": \"")?;
    put_fraction(step, text)?;
    text.extend_from_slice(b"\",\n  \"offset\": ")?;
    put_offset(offset, text)?;
    text.extend_from_slice(b",\n  \"files\": [")
}

/// The scene as JSON: its step as a fraction in lowest terms, its offset, and for each of its files
/// the name, the numbers of triangles, and how far corners moved at most, in the user's unit. Each
/// file has a line of its own. There are as many names as counts and moves, in one order. The one
/// error is out-of-memory.
pub fn scene_text(
    alloc: Global,
    grid: &Grid,
    names: &[Text],
    counts: &[Counts],
    moves: &[Length],
) -> Result<Vec<u8>, OutOfMemory>
    requires step { IsStep grid.now.step }
    requires counts { length counts.now ≡ length names.now }
    requires moves { length moves.now ≡ length names.now }
    ensures { IfOk result (λ text. IsSceneText grid.now names.now counts.now moves.now text.items) }
{
    let mut text = Vec::new(alloc);
    put_grid(&lowest(&grid.step), &grid.offset, &mut text)?;
    put_files(alloc, names, counts, moves, &mut text)?;
    text.extend_from_slice(b"\n  ]\n}\n")?;
    Ok(text)
}
