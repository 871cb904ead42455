// The system's files and standard streams. They tell no bytes.
ghost use Rattle.std.specs.Prelude.{◌≡◌, [], Some, None};
ghost use Rattle.std.specs.Option.{option_map_or};

use crate::Failed;
use crate::shelf::{FaultKind, Shelf};
use crate::sink::Sink;
use std::io::{Error, ErrorKind, Read, Write};
use std::rt::Files;
use std::{fs, thread};

// Whether a read or a write that ended with this error is tried again: a signal interrupted it, or
// the device isn't ready yet.
fn is_transient(error: &Error) -> bool {
    matches!(error.kind(), ErrorKind::Interrupted | ErrorKind::WouldBlock)
}

// Why a file can't be read, by the system's error.
fn kind_of(error: &Error) -> FaultKind {
    match error.kind() {
        ErrorKind::NotFound => FaultKind::NotFound,
        ErrorKind::PermissionDenied => FaultKind::Forbidden,
        ErrorKind::IsADirectory => FaultKind::Folder,
        _ => FaultKind::Other,
    }
}

/// The files of the system. Every error of the system is a fault. But a read that a signal
/// interrupted, or for which the device isn't ready yet, is tried again.
#[derive(Drop)]
pub struct FileShelf<'a, R: Files> {
    rt: &'a R,
    file: Option<R::File>,
    begun: u32,
    fault_at: u32,
    fault_kind: FaultKind,
    faults: u64,
}

impl<'a, R: Files> FileShelf<'a, R> {
    /// A shelf of the system's files.
    pub fn new(rt: &'a R) -> FileShelf<'a, R>
        ensures unread { ⟦<FileShelf<'a, R> as Shelf>⟧.unread result ≡ Some [] }
        ensures begun { ⟦<FileShelf<'a, R> as Shelf>⟧.begun result ≡ 0 }
        ensures fault_at { ⟦<FileShelf<'a, R> as Shelf>⟧.fault_at result ≡ 0 }
        ensures faults { ⟦<FileShelf<'a, R> as Shelf>⟧.faults result ≡ 0 }
    {
        FileShelf {
            rt,
            file: None,
            begun: 0,
            fault_at: 0,
            fault_kind: FaultKind::Other,
            faults: 0,
        }
    }
}

impl<'a, R: Files> Shelf for FileShelf<'a, R> {
    ghost contents = { λ _ _. None };

    // None are unread if no file is open, and otherwise they aren't told.
    ghost unread = { λ s. option_map_or (λ _. None) s.file (Some []) };

    ghost begun = { λ s. s.begun };

    ghost fault_at = { λ s. s.fault_at };

    ghost fault_kind = { λ s. s.fault_kind };

    ghost faults = { λ s. s.faults };

    fn last_fault(&self) -> FaultKind {
        self.fault_kind
    }

    fn begin(&mut self, name: &str, number: u32) -> Result<(), Failed> {
        self.begun = number;
        self.file = None;
        match fs::open(self.rt, name) {
            Ok(file) => {
                self.file = Some(file);
                Ok(())
            }
            Err(error) => {
                self.fault_at = number;
                self.fault_kind = kind_of(&error);
                self.faults = self.faults.saturating_add(1);
                Err(Failed)
            }
        }
    }

    fn read(&mut self, buf: &mut [u8]) -> Result<usize, Failed> {
        let Some(file) = &mut self.file else {
            return Ok(0);
        };
        // a bounded loop, since it must be proved to end
        for _ in 0..u64::MAX {
            match file.read(buf) {
                Ok(count) => return Ok(count),
                Err(error) if is_transient(&error) => thread::yield_now(),
                Err(error) => {
                    self.fault_at = self.begun;
                    self.fault_kind = kind_of(&error);
                    self.faults = self.faults.saturating_add(1);
                    return Err(Failed);
                }
            }
        }
        self.fault_at = self.begun;
        self.fault_kind = FaultKind::Other;
        self.faults = self.faults.saturating_add(1);
        Err(Failed)
    }
}

/// Standard output or standard error. Every error of the system is a fault, and so is a write that
/// takes nothing of a piece. But a write that a signal interrupted, or for which the device isn't
/// ready yet, is tried again.
#[derive(Drop)]
pub struct StdSink<W: Write + Drop> {
    to: W,
    faults: u64,
}

impl<W: Write + Drop> StdSink<W> {
    /// A sink over a writer.
    pub fn new(to: W) -> StdSink<W>
        ensures { ⟦<StdSink<W> as Sink>⟧.faults result ≡ 0 }
    {
        StdSink { to, faults: 0 }
    }
}

impl<W: Write + Drop> Sink for StdSink<W> {
    ghost taken = { λ _. None };

    ghost flushed = { λ _. 0 };

    ghost faults = { λ s. s.faults };

    fn write(&mut self, piece: &[u8]) -> Result<usize, Failed> {
        // a bounded loop, since it must be proved to end
        for _ in 0..u64::MAX {
            match self.to.write(piece) {
                Ok(count) if count > 0 || piece.is_empty() => return Ok(count),
                Err(error) if is_transient(&error) => thread::yield_now(),
                _ => break,
            }
        }
        self.faults = self.faults.saturating_add(1);
        Err(Failed)
    }

    fn flush(&mut self) -> Result<(), Failed> {
        match self.to.flush() {
            Ok(()) => Ok(()),
            Err(_) => {
                self.faults = self.faults.saturating_add(1);
                Err(Failed)
            }
        }
    }
}
