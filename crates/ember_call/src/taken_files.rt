// Files that are taken into memory.
ghost use Rattle.std.specs.Prelude.{◌≡◌, ◌<◌, ◌≤◌, ◌↔◌, [], IsTrue, MatchOption, None, vec_capacity, vec_len};
ghost use Rattle.ember_io.specs.Files.{first_of};
ghost use Rattle.mesh_outside.specs.Target.Several.{names_and_bytes};
ghost use Rattle.ember_call.specs.Taken.{HaveOwnNames, IsIndexOf, IsWithout, held_by};

use ember_io::Failed;
use mesh_outside::{BeginEnd, NamedFile, Target};
use std::alloc::Global;
use std::marker::Model;

/// Files that are taken into memory, in the order in which they are kept. Want of memory is the only
/// fault.
#[derive(Drop)]
pub struct TakenFiles {
    alloc: Global,
    kept: Vec<NamedFile>,
    new_file: Option<NamedFile>,
    faults: u64,
}

impl Model for TakenFiles {
    ghost use Rattle.std.specs.Prelude.{string_bytes};
    ghost use Rattle.std.specs.Option.{option_map};
    ghost use Rattle.mesh_outside.specs.Target.Several.{names_and_bytes};
    ghost use Rattle.ember_call.specs.Taken.{HaveOwnNames, TakenState, with_new};

    ghost Value = { TakenState };

    ghost view = { λ s. record {
      files = with_new s.new_file (names_and_bytes s.kept.items);
      begun = option_map (λ f. string_bytes f.name) s.new_file;
      faults = s.faults;
    } };

    ghost invariant = { λ s. HaveOwnNames (with_new s.new_file (names_and_bytes s.kept.items)) };
}

// The index of the file of this name.
fn index_of(files: &[NamedFile], name: &str) -> Option<usize>
    ensures { MatchOption result (first_of (names_and_bytes files.now) name.now ≡ None) (IsIndexOf files.now name.now) }
{
    for (i, file) in files.iter().enumerate() {
        if file.name.as_str() == name {
            return Some(i);
        }
    }
    None
}

// Removes the file of this name, if there is one.
fn remove_named(files: &mut Vec<NamedFile>, name: &str)
    requires { HaveOwnNames (names_and_bytes files.old.items) }
    ensures without { IsWithout (names_and_bytes files.old.items) (names_and_bytes files.new.items) name.now }
    ensures length { vec_len files.new ≤ vec_len files.old }
    ensures capacity { vec_capacity files.new ≡ vec_capacity files.old }
{
    if let Some(index) = index_of(files, name) {
        files.remove(index);
    }
}

impl TakenFiles {
    /// A target without files.
    pub fn new(alloc: Global) -> TakenFiles
        ensures { result ≡ record { files = []; begun = None; faults = 0 } }
    {
        TakenFiles {
            alloc,
            kept: Vec::new(alloc),
            new_file: None,
            faults: 0,
        }
    }

    /// Whether there was no memory for a file.
    pub fn lacks_memory(&self) -> bool
        ensures { IsTrue result ↔ (0 < self.now.faults) }
    {
        self.faults > 0
    }

    /// The files that were kept.
    pub fn into_files(self) -> Vec<NamedFile>
        requires { self.begun ≡ None }
        ensures files { names_and_bytes result.items ≡ self.files }
        ensures own_names { HaveOwnNames self.files }
    {
        self.kept
    }
}

impl Target for TakenFiles {
    ghost held = { λ s. held_by s.files };

    ghost begun = { λ s. s.begun };

    ghost faults = { λ s. s.faults };

    // There are no folders here.
    fn make_folder(&mut self, _name: &str) -> Result<(), Failed> {
        Ok(())
    }

    fn begin(&mut self, path: String) -> Result<(), BeginEnd> {
        if index_of(&self.kept, path.as_str()).is_some() {
            return Err(BeginEnd::Taken);
        }
        self.new_file = Some(NamedFile {
            name: path,
            bytes: Vec::new(self.alloc),
        });
        Ok(())
    }

    fn write(&mut self, piece: &[u8]) -> Result<usize, Failed> {
        let new_file = self.new_file.as_mut().unwrap();
        if new_file.bytes.extend_from_slice(piece).is_err() {
            self.faults = self.faults.saturating_add(1);
            return Err(Failed);
        }
        Ok(piece.len())
    }

    fn keep(&mut self, name: &str) -> Result<(), Failed> {
        let Ok(kept_name) = String::from_str(self.alloc, name) else {
            self.faults = self.faults.saturating_add(1);
            return Err(Failed);
        };
        if self.kept.reserve(1).is_err() {
            self.faults = self.faults.saturating_add(1);
            return Err(Failed);
        }
        let NamedFile { bytes, .. } = self.new_file.take().unwrap();
        remove_named(&mut self.kept, name);
        self.kept.push_reserved(NamedFile {
            name: kept_name,
            bytes,
        });
        Ok(())
    }

    fn discard(&mut self) -> Result<(), Failed> {
        self.new_file = None;
        Ok(())
    }
}
