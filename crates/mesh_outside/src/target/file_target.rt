// The system's files. They tell no bytes.
ghost use Rattle.std.specs.Prelude.{◌≡◌, ◌<◌, ◌≤◌, length, None, IfSome, string_bytes};
ghost use Rattle.std.specs.Option.{option_map};

use crate::target::target::{BeginEnd, Target};
use ember_io::Failed;
use std::alloc::Global;
use std::fs::{File, OpenFile};
use std::io::{Error, ErrorKind, Write};
use std::rt::Files;
use std::{fs, io, thread};

// Whether a call that ended with this error is tried again: a signal interrupted it, or the device
// isn't ready yet.
fn is_transient(error: &Error) -> bool {
    matches!(error.kind(), ErrorKind::Interrupted | ErrorKind::WouldBlock)
}

// Writes bytes from the front of a piece and returns how many, or None if the writer fails.
fn write_some<W: Write>(to: &mut W, piece: &[u8]) -> Option<usize>
    ensures bound { IfSome result (λ n. n ≤ length piece.now) }
    ensures some { IfSome result (λ n. 0 < length piece.now → 0 < n) }
{
    // a bounded loop, since it must be proved to end
    for _ in 0..u64::MAX {
        match to.write(piece) {
            Ok(count) if count > 0 || piece.is_empty() => return Some(count),
            Err(error) if is_transient(&error) => thread::yield_now(),
            _ => break,
        }
    }
    None
}

// A new file and its name.
#[derive(Drop)]
struct NewFile<F: Drop> {
    path: String,
    file: F,
}

// Gives the new file the permissions of the file that it is to replace, if there is one. Fails for a
// folder, a pipe and a device.
fn take_permissions<R: Files>(rt: &R, new_file: &R::File, name: &str) -> io::Result<()> {
    match fs::metadata(rt, name) {
        Ok(found) => {
            if !found.is_file() {
                return Err(Error::from(ErrorKind::Unsupported));
            }
            new_file.set_permissions(found.permissions())
        }
        Err(error) if error.kind() == ErrorKind::NotFound => Ok(()),
        Err(error) => Err(error),
    }
}

// The new file takes the place of the file of this name.
fn replace<R: Files>(rt: &R, new_file: &NewFile<R::File>, name: &str) -> io::Result<()> {
    take_permissions(rt, &new_file.file, name)?;
    new_file.file.sync_all()?;
    fs::rename(rt, new_file.path.as_str(), name)
}

// The same of the file that the name leads to, if it is that of a link.
fn replace_linked<R: Files>(
    rt: &R,
    alloc: Global,
    new_file: &NewFile<R::File>,
    name: &str,
) -> io::Result<()> {
    let is_link = match fs::symlink_metadata(rt, name) {
        Ok(found) => found.is_symlink(),
        Err(_) => false,
    };
    if !is_link {
        return replace(rt, new_file, name);
    }
    let linked = rt.canonicalize(alloc, name)?.into_string();
    replace(rt, new_file, linked.as_str())
}

/// The files of the system. A new file is on the device before it takes its name. It takes the
/// permissions of the file that it replaces; if its name is that of a link, it replaces the file that
/// the link leads to. A folder, a pipe and a device aren't replaced. Every error of the system is a
/// fault, and so is a write that takes nothing of a piece. But a write that a signal interrupted, or
/// for which the device isn't ready yet, is tried again.
#[derive(Drop)]
pub struct FileTarget<'a, R: Files> {
    rt: &'a R,
    alloc: Global,
    new_file: Option<NewFile<R::File>>,
    faults: u64,
}

impl<'a, R: Files> FileTarget<'a, R> {
    /// A target of the system's files.
    pub fn new(rt: &'a R, alloc: Global) -> FileTarget<'a, R>
        ensures begun { ⟦<FileTarget<'a, R> as Target>⟧.begun result ≡ None }
        ensures faults { ⟦<FileTarget<'a, R> as Target>⟧.faults result ≡ 0 }
    {
        FileTarget {
            rt,
            alloc,
            new_file: None,
            faults: 0,
        }
    }
}

impl<'a, R: Files> Target for FileTarget<'a, R> {
    ghost held = { λ _. None };

    ghost begun = { λ s. option_map (λ f. string_bytes f.path) s.new_file };

    ghost faults = { λ s. s.faults };

    fn make_folder(&mut self, name: &str) -> Result<(), Failed> {
        match fs::create_dir_all(self.rt, name) {
            Ok(()) => Ok(()),
            Err(_) => {
                self.faults = self.faults.saturating_add(1);
                Err(Failed)
            }
        }
    }

    fn begin(&mut self, path: String) -> Result<(), BeginEnd> {
        match File::create_new(self.rt, path.as_str()) {
            Ok(file) => {
                self.new_file = Some(NewFile { path, file });
                Ok(())
            }
            Err(error) if error.kind() == ErrorKind::AlreadyExists => Err(BeginEnd::Taken),
            Err(_) => {
                self.faults = self.faults.saturating_add(1);
                Err(BeginEnd::BeginFault)
            }
        }
    }

    fn write(&mut self, piece: &[u8]) -> Result<usize, Failed> {
        let new_file = self.new_file.as_mut().unwrap();
        if let Some(count) = write_some(&mut new_file.file, piece) {
            return Ok(count);
        }
        self.faults = self.faults.saturating_add(1);
        Err(Failed)
    }

    fn keep(&mut self, name: &str) -> Result<(), Failed> {
        let new_file = self.new_file.as_ref().unwrap();
        if replace_linked(self.rt, self.alloc, new_file, name).is_err() {
            self.faults = self.faults.saturating_add(1);
            return Err(Failed);
        }
        self.new_file = None;
        Ok(())
    }

    fn discard(&mut self) -> Result<(), Failed> {
        let new_file = self.new_file.take().unwrap();
        match fs::remove_file(self.rt, new_file.path.as_str()) {
            Ok(()) => Ok(()),
            Err(_) => {
                self.faults = self.faults.saturating_add(1);
                Err(Failed)
            }
        }
    }
}
