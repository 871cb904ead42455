// What a call over arrays gives.
ghost use Rattle.std.specs.Prelude.{◌≡◌, ◌≢◌, IfErr, IfOk, None};
ghost use Rattle.mesh_grid.specs.Snap.Steps.{IsStep};
ghost use Rattle.mesh_refusal.specs.Lines.{IsShown};
ghost use Rattle.ember_arrays.specs.Outcomes.{HasSolid, IsArrayOutcome, IsArrayStop, IsNothing, IsRefusalWith, IsReportedWith, IsSolidFor, mesh_of, place_of, words_of};

use crate::asked::{ArrayRequest, asked_by};
use crate::lines::{request_of, status_line, status_of};
use crate::solid::{ArraySolid, array_solid};
use mesh_boolean::BooleanFault;
use mesh_file::FileFault;
use mesh_ply::PlyFault;
use mesh_refusal::Status;
use mesh_report::solid_report;
use mesh_scene::SceneFault;
use mesh_words::{Request, WantedStep};
use std::alloc::{AllocError, Global};

/// The exit status of a program that lacks memory.
const NO_MEMORY: u32 = 12;

/// As many meshes as a line may name.
const MOST_NAMED: usize = 64;

/// What a call over arrays gives.
#[derive(Drop)]
pub struct ArrayOutcome {
    /// The exit status of `ember-mesh` for the same meshes: 0 if there is a solid.
    pub status: u32,
    /// The number of the mesh at fault, from 1; 0 if none is known to be.
    pub mesh: u32,
    /// The number of its vertex or its triangle at fault, from 1; 0 if none is known.
    pub place: u32,
    /// The report, or why there is no solid, as `ember-mesh` says it of files called `mesh 1`, `mesh 2`, .. It
    /// is empty if there is no memory for it.
    pub line: Vec<u8>,
    pub solid: Option<ArraySolid>,
}

// Why there is no solid: a status that isn't Done, and the vertex or triangle at fault, from 1, or 0.
#[derive(Drop)]
struct Stop {
    status: Status,
    place: u32,
}

// The number of the mesh at fault, or 0.
fn mesh_of(status: &Status) -> u32
    ensures { result ≡ mesh_of status.now }
{
    match status {
        Status::FileRefused(number, _) | Status::LongFile(number) => *number,
        Status::NotClosed(open, _) => open.file.saturating_add(1),
        _ => 0,
    }
}

// The number of its vertex or its triangle at fault, or 0.
fn place_of(fault: &BooleanFault) -> u32
    ensures { result ≡ place_of fault.now }
{
    match fault {
        BooleanFault::File(_, FileFault::Ply(fault)) => match fault {
            PlyFault::NotFinite(place)
            | PlyFault::NoSuchVertex(place)
            | PlyFault::TooLarge(place) => *place,
            _ => 0,
        },
        BooleanFault::Scene(SceneFault::Open(open)) => open.place,
        _ => 0,
    }
}

// The solid that is asked for, or why there is none.
fn solid_for(alloc: Global, request: &ArrayRequest, step: &WantedStep) -> Result<ArraySolid, Stop>
    ensures solid { IfOk result (IsSolidFor request.now step.now) }
    ensures stop { IfErr result (λ stop. IsArrayStop request.now step.now stop.status stop.place) }
    ensures shown { IfErr result (λ stop. IsShown stop.status) }
{
    let asked = match asked_by(alloc, request, step) {
        Ok(asked) => asked,
        Err(status) => return Err(Stop { status, place: 0 }),
    };
    match array_solid(
        alloc,
        request.meshes,
        &asked.expr,
        asked.wanted,
        request.digits,
        request.wants_sources,
    ) {
        Ok(solid) => Ok(solid),
        Err(fault) => {
            let place = place_of(&fault);
            Err(Stop {
                status: status_of(alloc, fault),
                place,
            })
        }
    }
}

// The outcome without a solid and without a line.
fn no_memory(alloc: Global) -> ArrayOutcome
    ensures { IsNothing result }
{
    ArrayOutcome {
        status: NO_MEMORY,
        mesh: 0,
        place: 0,
        line: Vec::new(alloc),
        solid: None,
    }
}

// The request of ember-mesh that asks for the same.
fn words_of(alloc: Global, request: &ArrayRequest, step: WantedStep) -> Result<Request, AllocError>
    ensures { IfOk result (λ words. words ≡ words_of request.now step) }
{
    let count = request.meshes.len().min(MOST_NAMED) as u32;
    request_of(alloc, count, step, request.digits)
}

// The outcome with a solid, and its report.
fn reported(
    alloc: Global,
    request: &ArrayRequest,
    step: WantedStep,
    solid: ArraySolid,
) -> ArrayOutcome
    requires { IsStep solid.file.grid.step }
    ensures { IsReportedWith (words_of request.now step) solid result }
{
    let Ok(words) = words_of(alloc, request, step) else {
        return no_memory(alloc);
    };
    match solid_report(alloc, false, &words, &solid.file) {
        Ok(line) => ArrayOutcome {
            status: 0,
            mesh: 0,
            place: 0,
            line,
            solid: Some(solid),
        },
        Err(_) => no_memory(alloc),
    }
}

// The outcome that says why there is no solid.
fn refused(alloc: Global, request: &ArrayRequest, step: WantedStep, stop: &Stop) -> ArrayOutcome
    requires { IsShown stop.now.status }
    ensures { IsRefusalWith (words_of request.now step) stop.now.status stop.now.place result }
{
    let Ok(words) = words_of(alloc, request, step) else {
        return no_memory(alloc);
    };
    match status_line(alloc, &words, &stop.status) {
        Ok(line) => ArrayOutcome {
            status: u32::from(stop.status.number()),
            mesh: mesh_of(&stop.status),
            place: stop.place,
            line,
            solid: None,
        },
        Err(_) => no_memory(alloc),
    }
}

/// The solid of a Boolean of meshes in arrays: what `ember-mesh bool` does with the PLY files that hold them and
/// `-o out.off`, but for the file. It uses one thread.
///
/// With a status above 0 there is no solid. Each status has its line, but maybe not 12 (out-of-memory).
pub fn boolean(alloc: Global, request: &ArrayRequest, step: WantedStep) -> ArrayOutcome
    ensures outcome { IsArrayOutcome request.now step result }

    // With status 0 there is the solid that is asked for.
    ensures solid { result.status ≡ 0 → HasSolid request.now step result }

    ensures nothing { result.status ≢ 0 → result.solid ≡ None }
{
    match solid_for(alloc, request, &step) {
        Ok(solid) => reported(alloc, request, step, solid),
        Err(stop) => refused(alloc, request, step, &stop),
    }
}
