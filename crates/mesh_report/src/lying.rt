// How many triangles of the result lie on each file.
ghost use Rattle.std.specs.Prelude.{◌≡◌, ◌++◌, decimal, map, IfOk, OnOk};
ghost use Rattle.mesh_texts.specs.Objects.{texts_of};
ghost use Rattle.mesh_texts.specs.Texts.{line};
ghost use Rattle.mesh_report.specs.Lying.{AddsTexts, lying_text, missed_text, missed_warning, missed_warning_text, missed_warnings, on_file_lines, on_file_text, told};

use crate::report::put_line;
use ember_model::OutOfMemory;
use ember_words::Text;
use mesh_texts::{number, put_count, string};
use std::alloc::Global;

/// The numbers that are told: none if nothing is left, since nothing lies on a file then.
pub fn told(all: u64, lying: &Option<Vec<u64>>) -> &[u64]
    ensures { result.now ≡ told all lying.now }
{
    if all == 0 {
        return &[];
    }
    match lying {
        Some(counts) => counts.as_slice(),
        None => &[],
    }
}

// Appends how many triangles of the result lie on a file.
fn put_lying(name: &[u8], count: u64, all: u64, text: &mut Vec<u8>) -> Result<(), OutOfMemory>
    ensures { OnOk result (text.new.items ≡ text.old.items ++ lying_text name.now count all) }
{
    text.extend_from_slice(name)?;
    text.extend_from_slice(b": ")?;
    put_count(count, text)?;
    text.extend_from_slice(b" of ")?;
    put_count(all, text)?;
    text.extend_from_slice(b" triangles of the result lie on it")
}

// Appends that none does, and what to do.
fn put_missed(name: &[u8], all: u64, text: &mut Vec<u8>) -> Result<(), OutOfMemory>
    ensures { OnOk result (text.new.items ≡ text.old.items ++ missed_text name.now all) }
{
    put_lying(name, 0, all, text)?;
    text.extend_from_slice(b"; see where it lies with ember-mesh view")
}

// Appends the same as a warning.
fn put_missed_warning_text(name: &[u8], all: u64, text: &mut Vec<u8>) -> Result<(), OutOfMemory>
    ensures { OnOk result (text.new.items ≡ text.old.items ++ missed_warning_text name.now all) }
{
    text.extend_from_slice(b"warning: ")?;
    put_missed(name, all, text)
}

// Appends what is said of the triangles on a file.
fn put_on_file_text(
    name: &[u8],
    count: u64,
    all: u64,
    text: &mut Vec<u8>,
) -> Result<(), OutOfMemory>
    ensures { OnOk result (text.new.items ≡ text.old.items ++ on_file_text name.now count all) }
{
    if count == 0 {
        put_missed_warning_text(name, all, text)
    } else {
        put_lying(name, count, all, text)
    }
}

// Appends the line of the triangles on a file.
fn put_on_file(
    alloc: Global,
    name: &[u8],
    count: u64,
    all: u64,
    text: &mut Vec<u8>,
) -> Result<(), OutOfMemory>
    ensures { OnOk result (text.new.items ≡ text.old.items ++ line (on_file_text name.now count all)) }
{
    let mut said = Vec::new(alloc);
    put_on_file_text(name, count, all, &mut said)?;
    put_line(alloc, &said, text)
}

/// Appends a line for each file: how many triangles of the result lie on it, which is a warning if
/// none does.
pub fn put_on_files(
    alloc: Global,
    names: &[Text],
    counts: &[u64],
    all: u64,
    text: &mut Vec<u8>,
) -> Result<(), OutOfMemory>
    ensures { OnOk result (text.new.items ≡
        text.old.items ++ on_file_lines names.now counts.now all) }
{
    let mut file = 0;
    for name in names {
        let Some(count) = counts.get(file) else {
            return Ok(());
        };
        put_on_file(alloc, name.as_str().as_bytes(), *count, all, text)?;
        file += 1;
    }
    Ok(())
}

// Appends that no triangle of the result lies on a file, if none does.
fn put_missed_warning(
    alloc: Global,
    name: &[u8],
    count: u64,
    all: u64,
    texts: &mut Vec<Vec<u8>>,
) -> Result<(), OutOfMemory>
    ensures { OnOk result (texts_of texts.new.items ≡
        texts_of texts.old.items ++ missed_warning name.now count all) }
{
    if count != 0 {
        return Ok(());
    }
    let mut said = Vec::new(alloc);
    put_missed(name, all, &mut said)?;
    texts.push(string(alloc, &said)?)?;
    Ok(())
}

/// Appends the warnings of files on which no triangle of the result lies, as JSON has them.
pub fn put_missed_warnings(
    alloc: Global,
    names: &[Text],
    counts: &[u64],
    all: u64,
    texts: &mut Vec<Vec<u8>>,
) -> Result<(), OutOfMemory>
    ensures { OnOk result (AddsTexts (missed_warnings names.now counts.now all) texts.old texts.new) }
{
    let mut file = 0;
    for name in names {
        let Some(count) = counts.get(file) else {
            return Ok(());
        };
        put_missed_warning(alloc, name.as_str().as_bytes(), *count, all, texts)?;
        file += 1;
    }
    Ok(())
}

/// The numbers in decimal digits.
pub fn numbers(alloc: Global, counts: &[u64]) -> Result<Vec<Vec<u8>>, OutOfMemory>
    ensures { IfOk result (λ texts. texts_of texts.items ≡ map decimal counts.now) }
{
    let mut texts = Vec::with_capacity(alloc, counts.len())?;
    for count in counts {
        texts.push(number(alloc, *count)?)?;
    }
    Ok(texts)
}
