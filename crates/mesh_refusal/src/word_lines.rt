// Why words are refused.
ghost use Rattle.std.specs.Prelude.{◌≡◌, ◌++◌, codes, map, OnOk, string_bytes};
ghost use Rattle.mesh_words.specs.declared.faults.Refusal.TheVariants.{NotAStep, OutputEnding, OverInput, OverOutput, PageEnding};
ghost use Rattle.mesh_refusal.specs.WordLines.{foreign_text, no_place_text, refusal_text, shape_text, value_text, why_refused, word_text, word_at};

use crate::placings::put_place;
use ember_model::OutOfMemory;
use mesh_placing::{PlaceFault, ShapeWordFault};
use mesh_texts::put_value;
use mesh_words::{Refusal, Setting, input_given, output_given, step_given, value_given};
use std::alloc::Global;

const OUTPUT_ENDING: &[u8] = b": the name must end in .stl, .obj, .ply, .off or .glb";

const UNKNOWN_FORMAT: &[u8] = b"not one of stl, obj, ply, off and glb";

const NOT_A_STEP: &[u8] = b": not a number above 0";

const PAGE_ENDING: &[u8] = b": the name must end in .html or .htm";

const NO_BOX: &[u8] = b"not X,Y,Z,X,Y,Z with at most 12 decimal places";

const NO_CYLINDER: &[u8] = b"not X,Y,Z,RADIUS,HEIGHT,SIDES with at most 12 decimal places";

// Appends why a word is refused.
fn put_word(word: &[u8], why: &[u8], text: &mut Vec<u8>) -> Result<(), OutOfMemory>
    ensures { OnOk result (text.new.items ≡ text.old.items ++ word_text word.now why.now) }
{
    text.extend_from_slice(word)?;
    text.extend_from_slice(b": ")?;
    text.extend_from_slice(why)?;
    text.extend_from_slice(b"; see ember-mesh help")
}

// The word with this number; empty past the last.
fn word_at(words: &[String], number: usize) -> &[u8]
    ensures { result.now ≡ word_at (map string_bytes words.now) number }
{
    match words.get(number) {
        Some(word) => word.as_bytes(),
        None => &[],
    }
}

// Appends that the name of the output has another ending.
fn put_output_ending(alloc: Global, words: &[String], text: &mut Vec<u8>) -> Result<(), OutOfMemory>
    ensures { OnOk result (text.new.items ≡ text.old.items ++ why_refused words.now OutputEnding) }
{
    let output = output_given(alloc, words)?;
    put_value(b"-o ", output.as_str().as_bytes(), OUTPUT_ENDING, text)
}

// Appends that the value of `--step` is no step.
fn put_no_step(alloc: Global, words: &[String], text: &mut Vec<u8>) -> Result<(), OutOfMemory>
    ensures { OnOk result (text.new.items ≡ text.old.items ++ why_refused words.now NotAStep) }
{
    let step = step_given(alloc, words)?;
    put_value(b"--step ", step.as_str().as_bytes(), NOT_A_STEP, text)
}

// Appends that a command doesn't take an option.
fn put_foreign(option: Setting, command: &[u8], text: &mut Vec<u8>) -> Result<(), OutOfMemory>
    ensures { OnOk result (text.new.items ≡ text.old.items ++ foreign_text option command.now) }
{
    text.extend_from_slice(option.name().as_bytes())?;
    text.extend_from_slice(b": not an option of ")?;
    text.extend_from_slice(command)?;
    text.extend_from_slice(b"; see ember-mesh help")
}

// Appends an option and its value.
fn put_given(
    alloc: Global,
    words: &[String],
    option: Setting,
    text: &mut Vec<u8>,
) -> Result<(), OutOfMemory>
    ensures { OnOk result (text.new.items ≡
        text.old.items ++ value_text option (map string_bytes words.now)) }
{
    let value = value_given(alloc, words, option)?;
    let name = option.name();
    text.extend_from_slice(name.as_bytes())?;
    text.extend_from_slice(b" ")?;
    text.extend_from_slice(value.as_str().as_bytes())
}

// Appends that the name of a page has another ending.
fn put_page_ending(
    alloc: Global,
    words: &[String],
    option: Setting,
    text: &mut Vec<u8>,
) -> Result<(), OutOfMemory>
    ensures { OnOk result (text.new.items ≡ text.old.items ++ why_refused words.now (PageEnding option)) }
{
    put_given(alloc, words, option, text)?;
    text.extend_from_slice(PAGE_ENDING)
}

// Appends that an input would be written over.
fn put_over_input(
    alloc: Global,
    words: &[String],
    option: Setting,
    number: usize,
    text: &mut Vec<u8>,
) -> Result<(), OutOfMemory>
    ensures { OnOk result (text.new.items ≡
        text.old.items ++ why_refused words.now (OverInput option number)) }
{
    let input = input_given(alloc, words, number)?;
    put_given(alloc, words, option, text)?;
    put_value(
        b": would write over the input ",
        input.as_str().as_bytes(),
        b"; give another name",
        text,
    )
}

// Appends that the output would be written twice.
fn put_over_output(
    alloc: Global,
    words: &[String],
    option: Setting,
    text: &mut Vec<u8>,
) -> Result<(), OutOfMemory>
    ensures { OnOk result (text.new.items ≡ text.old.items ++ why_refused words.now (OverOutput option)) }
{
    let output = output_given(alloc, words)?;
    put_given(alloc, words, option, text)?;
    put_value(
        b": would write the same file as -o ",
        output.as_str().as_bytes(),
        b"; give another name",
        text,
    )
}

// Appends that a value of `--place` says no placing.
fn put_no_place(fault: &PlaceFault, text: &mut Vec<u8>) -> Result<(), OutOfMemory>
    ensures { OnOk result (text.new.items ≡ text.old.items ++ no_place_text fault.now) }
{
    text.extend_from_slice(b"--place: ")?;
    put_place(fault, text)?;
    text.extend_from_slice(b"; see ember-mesh help")
}

// Appends that a name that begins as a shape says none.
fn put_no_shape(fault: ShapeWordFault, text: &mut Vec<u8>) -> Result<(), OutOfMemory>
    ensures { OnOk result (text.new.items ≡ text.old.items ++ shape_text fault) }
{
    match fault {
        ShapeWordFault::NoBox => put_word(b"box", NO_BOX, text),
        ShapeWordFault::NoCylinder => put_word(b"cylinder", NO_CYLINDER, text),
        ShapeWordFault::Flat => put_word(b"box", b"no volume", text),
        ShapeWordFault::Radius => put_word(b"cylinder", b"the radius is not above 0", text),
        ShapeWordFault::Height => put_word(b"cylinder", b"the height is 0", text),
        ShapeWordFault::Sides => put_word(b"cylinder", b"not 3 to 4096 sides", text),
    }
}

/// Appends why the words are refused.
pub fn put_refusal(
    alloc: Global,
    words: &[String],
    why: Refusal,
    text: &mut Vec<u8>,
) -> Result<(), OutOfMemory>
    ensures { OnOk result (text.new.items ≡
        text.old.items ++ refusal_text (map string_bytes words.now) why) }
{
    match why {
        Refusal::NoCommand => text.extend_from_slice(b"no command; see ember-mesh help"),
        Refusal::UnknownCommand => put_word(word_at(words, 0), b"no such command", text),
        Refusal::UnknownOption(number) => put_word(word_at(words, number), b"unknown option", text),
        Refusal::NoValue => {
            let last = word_at(words, words.len().saturating_sub(1));
            put_word(last, b"needs a value", text)
        }
        Refusal::NoFiles => text.extend_from_slice(b"no files; see ember-mesh help"),
        Refusal::TooManyFiles => text.extend_from_slice(b"more than 64 files; see ember-mesh help"),
        Refusal::SecondInput => put_word(b"-", b"standard input is read once", text),
        Refusal::Shape(fault) => put_no_shape(fault, text),
        Refusal::NoExpression => put_word(b"--expr", b"is missing", text),
        Refusal::NeedlessExpression => put_word(b"--expr", b"is for bool alone", text),
        Refusal::NotFor(option) => put_foreign(option, word_at(words, 0), text),
        Refusal::Twice(option) => put_word(option.name().as_bytes(), b"is given twice", text),
        Refusal::PageEnding(option) => put_page_ending(alloc, words, option, text),
        Refusal::OverInput(option, number) => put_over_input(alloc, words, option, number, text),
        Refusal::OverOutput(option) => put_over_output(alloc, words, option, text),
        Refusal::NotOneDocument => {
            text.extend_from_slice(b"export takes one document; see ember-mesh help")
        }
        Refusal::NoFolder => put_word(b"-d", b"is missing", text),
        Refusal::NoOutput => put_word(b"-o", b"is missing", text),
        Refusal::NoFormat => put_word(b"--format", b"is missing", text),
        Refusal::NeedlessFormat => put_word(b"--format", b"is for -o - alone", text),
        Refusal::UnknownFormat => put_word(b"--format", UNKNOWN_FORMAT, text),
        Refusal::OutputEnding => put_output_ending(alloc, words, text),
        Refusal::NotAStep => put_no_step(alloc, words, text),
        Refusal::Workers => put_word(b"--workers", b"not a number from 1 to 64", text),
        Refusal::Digits => put_word(b"--digits", b"not a number from 0 to 17", text),
        Refusal::Place(fault) => put_no_place(&fault, text),
        Refusal::Turn => put_word(b"--turn", b"not the number of a file", text),
    }
}
