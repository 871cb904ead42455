// Mesh files, and the surfaces that they hold.
ghost use Rattle.std.specs.Prelude.{◌≡◌, ◌≤◌, length, All, IfOk, IfErr};
ghost use Rattle.mesh_grid.specs.Grid.Grids.{IsWithinLimit};
ghost use Rattle.mesh_boolean.specs.Files.{IsSmall, reading, held, AreReadings};
ghost use Rattle.mesh_boolean.specs.Faults.{of_file_fault, IsRefusal, IsReadFault};

use crate::fault::BooleanFault;
use mesh_file::{FileFault, read_file};
use mesh_outside::{Stage, Stages};
use mesh_read::Surface;
use std::alloc::Global;

/// A mesh file. The name may say which format it has.
#[derive(Clone, Copy)]
pub struct InputFile<'a> {
    pub name: &'a [u8],
    pub bytes: &'a [u8],
}

// The fault of the file with this index.
fn file_fault<'a>(index: u32, fault: FileFault<'a>) -> BooleanFault<'a>
    ensures { result ≡ of_file_fault index fault.entry }
{
    match fault {
        FileFault::OutOfMemory => BooleanFault::OutOfMemory,
        fault => BooleanFault::File(index, fault),
    }
}

// The surface of the file with this index.
fn surface_in<'a>(
    alloc: Global,
    file: &InputFile<'a>,
    index: u32,
) -> Result<Surface<'a>, BooleanFault<'a>>
    requires { IsSmall file.now }
    ensures says { IfOk result (λ surface. reading file.now ≡ held surface) }
    ensures within { IfOk result IsWithinLimit }
    ensures fault { IfErr result (IsRefusal file.now index) }
{
    match read_file(alloc, file.name, file.bytes) {
        Ok(surface) => Ok(surface),
        Err(fault) => Err(file_fault(index, fault)),
    }
}

/// The surface of each file, in order, or the first fault. There are at most 64 files. `stages` is
/// told before each of them.
pub fn surfaces_in<'a, P: Stages>(
    alloc: Global,
    files: &[InputFile<'a>],
    stages: &P,
) -> Result<Vec<Surface<'a>>, BooleanFault<'a>>
    requires few { length files.now ≤ 64 }
    requires sizes { All IsSmall files.now }
    ensures readings { IfOk result (λ surfaces. AreReadings files.now surfaces.items) }
    ensures within { IfOk result (λ surfaces. All IsWithinLimit surfaces.items) }
    ensures fault { IfErr result (IsReadFault files.now) }
{
    let mut surfaces = Vec::with_capacity(alloc, files.len())?;
    for (index, file) in files.iter().enumerate() {
        stages.begin(Stage::Reading);
        match surface_in(alloc, file, index as u32) {
            Ok(surface) => surfaces.push(surface)?,
            Err(fault) => return Err(fault),
        }
    }
    Ok(surfaces)
}
