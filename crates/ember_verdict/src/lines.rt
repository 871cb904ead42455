// The line on err for a status. It is written in pieces and allocates nothing, so out-of-memory has
// a line too.
ghost use Rattle.std.specs.Prelude.{◌≡◌, [], ◌∷◌, Some, decimal, flat_map};
ghost use Rattle.std.specs.Fmt.{signed_decimal};
ghost use Rattle.ember_io.specs.Calls.{sink_seen};
ghost use Rattle.ember_verdict.specs.Messages.{Says};
ghost use Rattle.ember_verdict.specs.Verdict.{names_of};
ghost use Rattle.ember_verdict.specs.Lines.{decimal_text, endless_line, expr_line, face_line, fault_line, line_on_err, loose_line, mesh_line, name_of, no_mesh_line, obj_line, place_line, text_on_err, triangles_line};

use crate::status::{FaceFault, LimitKind, Status};
use ember_balance::Loose;
use ember_dec::DecFault;
use ember_expr::ExprFault;
use ember_io::{Sink, write_all};
use ember_mesh::MeshFault;
use ember_model::Corner;
use ember_obj::ObjFault;
use ember_words::{Command, Text, Texts};
use itoa::Buffer;

// Writes the pieces one after another, up to the first fault.
fn say<E: Sink>(err: &mut E, pieces: &[&[u8]])
    ensures { Says (sink_seen E.Sink err) (flat_map (λ p. p.now) pieces.now) }
{
    for piece in pieces {
        let Ok(()) = write_all(err, piece) else {
            return;
        };
    }
}

// What is wrong with a coordinate, in words.
fn coordinate_fault(fault: &DecFault) -> &'static [u8]
    ensures { result.now ≡ decimal_text fault.now }
{
    match fault {
        DecFault::Malformed => b"coordinate malformed",
        DecFault::Fraction => b"coordinate fraction",
        DecFault::Range => b"coordinate range",
    }
}

// The name of file `number`, from 1, of a command with one file. As in `name_of`, 0 counts as 1.
fn only_name(file: &Text, number: u32) -> &[u8]
    ensures { result.now ≡ name_of (file.now ∷ []) number }
{
    if number <= 1 {
        file.as_str().as_bytes()
    } else {
        &[]
    }
}

// The name of file `number`, from 1. As in `name_of`, 0 counts as 1, and a number past the last
// file gives an empty name.
fn name_among(files: &Texts, number: u32) -> &[u8]
    ensures { result.now ≡ name_of files.now number }
{
    match files.items().get((number as usize).saturating_sub(1)) {
        Some(name) => name.as_str().as_bytes(),
        None => &[],
    }
}

// The name of file `number` of the command, from 1.
fn name_at(command: &Command, number: u32) -> &[u8]
    ensures { result.now ≡ name_of (names_of (Some command.now)) number }
{
    match command {
        Command::Faces { file, .. } => only_name(file, number),
        Command::At { files, .. } => name_among(files, number),
        Command::Boole { files, .. } => name_among(files, number),
        Command::Demo { .. } => &[],
        Command::Voxels { files, .. } => name_among(files, number),
        Command::Pairs { files, .. } => name_among(files, number),
        Command::Slice { file, .. } => only_name(file, number),
    }
}

// The line of a fault in a line of a file.
fn say_fault<E: Sink>(err: &mut E, name: &[u8], line: u32, fault: &[u8])
    ensures { Says (sink_seen E.Sink err) (fault_line name.now line fault.now) }
{
    let mut buffer = Buffer::new();
    let line = buffer.format(line).as_bytes();
    say(
        err,
        &[b"ember: ", name, b": line ", line, b": ", fault, b"\n"],
    );
}

// The line of a file's first fault.
fn say_obj_fault<E: Sink>(err: &mut E, name: &[u8], fault: &ObjFault)
    ensures { Says (sink_seen E.Sink err) (obj_line name.now fault.now) }
{
    match fault {
        ObjFault::Word(line) => say_fault(err, name, *line, b"word"),
        ObjFault::Coordinate(line, fault) => say_fault(err, name, *line, coordinate_fault(fault)),
        ObjFault::Index(line) => say_fault(err, name, *line, b"index"),
        ObjFault::FewCorners(line) => say_fault(err, name, *line, b"few corners"),
        ObjFault::LongLine(line) => say_fault(err, name, *line, b"long line"),
        ObjFault::TooMany(line) => say_fault(err, name, *line, b"too many"),
        ObjFault::OutOfMemory => say_out_of_memory(err),
    }
}

// The decimal digits of a corner's coordinates, with a minus if one is negative, and of a count.
fn x_digits<'a>(buffer: &'a mut Buffer, corner: &Corner) -> &'a [u8]
    ensures { result.now ≡ signed_decimal corner.now.x }
{
    buffer.format(corner.x).as_bytes()
}

fn y_digits<'a>(buffer: &'a mut Buffer, corner: &Corner) -> &'a [u8]
    ensures { result.now ≡ signed_decimal corner.now.y }
{
    buffer.format(corner.y).as_bytes()
}

fn z_digits<'a>(buffer: &'a mut Buffer, corner: &Corner) -> &'a [u8]
    ensures { result.now ≡ signed_decimal corner.now.z }
{
    buffer.format(corner.z).as_bytes()
}

fn count_digits(buffer: &mut Buffer, count: u32) -> &[u8]
    ensures { result.now ≡ decimal count }
{
    buffer.format(count).as_bytes()
}

// The line of an edge that occurs more often than its reverse.
fn say_loose<E: Sink>(err: &mut E, name: &[u8], loose: &Loose)
    ensures { Says (sink_seen E.Sink err) (loose_line name.now loose.now) }
{
    let (mut x, mut y, mut z) = (Buffer::new(), Buffer::new(), Buffer::new());
    let (mut u, mut v, mut w) = (Buffer::new(), Buffer::new(), Buffer::new());
    let (mut there, mut back) = (Buffer::new(), Buffer::new());
    say(
        err,
        &[
            b"ember: ",
            name,
            b": edge ",
            x_digits(&mut x, &loose.from),
            b" ",
            y_digits(&mut y, &loose.from),
            b" ",
            z_digits(&mut z, &loose.from),
            b" to ",
            x_digits(&mut u, &loose.to),
            b" ",
            y_digits(&mut v, &loose.to),
            b" ",
            z_digits(&mut w, &loose.to),
            b" stands ",
            count_digits(&mut there, loose.there),
            b" times and ",
            count_digits(&mut back, loose.back),
            b" times reversed\n",
        ],
    );
}

// The line of a mesh that isn't closed.
fn say_mesh_fault<E: Sink>(err: &mut E, name: &[u8], fault: &MeshFault)
    ensures { Says (sink_seen E.Sink err) (mesh_line name.now fault.now) }
{
    match fault {
        MeshFault::Unbalanced(loose) => say_loose(err, name, loose),
        MeshFault::OutOfMemory => say_out_of_memory(err),
    }
}

// The line of a fault at a place of the expression.
fn say_place<E: Sink>(err: &mut E, fault: &[u8], place: u32)
    ensures { Says (sink_seen E.Sink err) (place_line fault.now place) }
{
    let mut buffer = Buffer::new();
    let place = buffer.format(place).as_bytes();
    say(err, &[b"ember: expression: ", fault, b" at ", place, b"\n"]);
}

// The line of an expression that names a mesh which isn't given.
fn say_no_mesh<E: Sink>(err: &mut E, number: u32)
    ensures { Says (sink_seen E.Sink err) (no_mesh_line number) }
{
    let mut buffer = Buffer::new();
    let number = buffer.format(number).as_bytes();
    say(err, &[b"ember: expression: no mesh ", number, b"\n"]);
}

// The line of an expression's first fault.
fn say_expr_fault<E: Sink>(err: &mut E, fault: &ExprFault)
    ensures { Says (sink_seen E.Sink err) (expr_line fault.now) }
{
    match fault {
        ExprFault::Syntax(place) => say_place(err, b"syntax", *place),
        ExprFault::Deep(place) => say_place(err, b"deep", *place),
        ExprFault::Number(place) => say_place(err, b"number", *place),
        ExprFault::NoMesh(number) => say_no_mesh(err, *number),
        ExprFault::Long => say(err, &[b"ember: expression: long\n"]),
        ExprFault::OutOfMemory => say_out_of_memory(err),
    }
}

// The line of an endless face.
fn say_endless<E: Sink>(err: &mut E, name: &[u8], number: u32)
    ensures { Says (sink_seen E.Sink err) (endless_line name.now number) }
{
    let mut buffer = Buffer::new();
    let number = buffer.format(number).as_bytes();
    say(err, &[b"ember: ", name, b": face ", number, b" endless\n"]);
}

// The line of a file that isn't a face file.
fn say_no_face_file<E: Sink>(err: &mut E, name: &[u8])
    ensures { Says (sink_seen E.Sink err) (face_line name.now FaceFault.Form) }
{
    say(err, &[b"ember: ", name, b": not a face file\n"]);
}

// The line of a face file's fault.
fn say_face_fault<E: Sink>(err: &mut E, name: &[u8], fault: &FaceFault)
    ensures { Says (sink_seen E.Sink err) (face_line name.now fault.now) }
{
    match fault {
        FaceFault::Form => say_no_face_file(err, name),
        FaceFault::Endless(number) => say_endless(err, name, *number),
    }
}

// The line of too many triangles.
fn say_triangles<E: Sink>(err: &mut E, count: u64)
    ensures { Says (sink_seen E.Sink err) (triangles_line count) }
{
    let mut buffer = Buffer::new();
    let count = buffer.format(count).as_bytes();
    say(err, &[b"ember: ", count, b" triangles\n"]);
}

// The line of too many bytes, or of too many triangles.
fn say_limit<E: Sink>(err: &mut E, command: &Command, kind: LimitKind, count: u64)
    ensures { Says (sink_seen E.Sink err) (line_on_err (names_of (Some command.now)) (Status.Limit kind count)) }
{
    match kind {
        LimitKind::Bytes(i) => {
            let name = name_at(command, i);
            say(err, &[b"ember: ", name, b": more than 268435456 bytes\n"]);
        }
        LimitKind::Triangles => say_triangles(err, count),
    }
}

/// Writes the line of refused words to err.
pub fn say_words_refused<E: Sink>(err: &mut E)
    ensures { Says (sink_seen E.Sink err) (line_on_err [] Status.Words) }
{
    say(err, &[b"ember: words refused\n"]);
}

/// Writes the out-of-memory line to err.
pub fn say_out_of_memory<E: Sink>(err: &mut E)
    ensures { Says (sink_seen E.Sink err) (line_on_err [] Status.OutOfMemory) }
{
    say(err, &[b"ember: out of memory\n"]);
}

/// Writes the status's line to err, or the report after success. A fault of err ends the line, and
/// changes nothing else.
pub fn say_status<E: Sink>(err: &mut E, command: &Command, status: &Status, report: &[u8])
    ensures { Says (sink_seen E.Sink err) (text_on_err (names_of (Some command.now)) status.now report.now) }
{
    match status {
        // Without a report no byte is written, and err is only flushed.
        Status::Done => say(err, &[report]),
        Status::Words => say_words_refused(err),
        Status::ReadFault(i) => {
            let name = name_at(command, *i);
            say(err, &[b"ember: cannot read ", name, b"\n"]);
        }
        Status::WriteFault => say(err, &[b"ember: cannot write\n"]),
        Status::ObjRefused(i, fault) => say_obj_fault(err, name_at(command, *i), fault),
        Status::MeshRefused(i, fault) => say_mesh_fault(err, name_at(command, *i), fault),
        Status::ExprRefused(fault) => say_expr_fault(err, fault),
        Status::Unbounded => say(err, &[b"ember: expression holds outside all meshes\n"]),
        Status::Limit(kind, count) => say_limit(err, command, *kind, *count),
        Status::NotClear => say(err, &[b"ember: point not clear\n"]),
        Status::FaceRefused(fault) => say_face_fault(err, name_at(command, 1), fault),
        Status::OutOfMemory => say_out_of_memory(err),
    }
}
