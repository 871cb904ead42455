// The system's files, and standard input under the name `-`.
ghost use Rattle.std.specs.Prelude.{◌≤◌, length, None, IfSome, if◌then◌else◌};

use ember_io::{Failed, FaultKind, FileShelf, Shelf};
use std::io::{Error, ErrorKind, Read};
use std::rt::Files;
use std::thread;

// Whether a read that ended with this error is tried again: a signal interrupted it, or the device
// isn't ready yet.
fn is_transient(error: &Error) -> bool {
    matches!(error.kind(), ErrorKind::Interrupted | ErrorKind::WouldBlock)
}

// Reads the next bytes and returns how many, or None if the reader fails.
fn read_some<I: Read>(from: &mut I, buf: &mut [u8]) -> Option<usize>
    ensures { IfSome result (λ n. n ≤ length buf.new) }
{
    // a bounded loop, since it must be proved to end
    for _ in 0..u64::MAX {
        match from.read(buf) {
            Ok(count) => return Some(count),
            Err(error) if is_transient(&error) => thread::yield_now(),
            Err(_) => break,
        }
    }
    None
}

/// The files of the system, and a reader under the name `-`. They tell no bytes. Every error of the
/// system is a fault. But a read that a signal interrupted, or for which the device isn't ready
/// yet, is tried again.
#[derive(Drop)]
pub struct InputShelf<'a, R: Files, I: Read + Drop> {
    files: FileShelf<'a, R>,
    input: I,
    is_input: bool,
    begun: u32,
    fault_at: u32,
    fault_kind: FaultKind,
    faults: u64,
}

impl<'a, R: Files, I: Read + Drop> InputShelf<'a, R, I> {
    /// A shelf of the system's files and of this reader.
    pub fn new(rt: &'a R, input: I) -> InputShelf<'a, R, I> {
        InputShelf {
            files: FileShelf::new(rt),
            input,
            is_input: false,
            begun: 0,
            fault_at: 0,
            fault_kind: FaultKind::Other,
            faults: 0,
        }
    }
}

impl<'a, R: Files, I: Read + Drop> Shelf for InputShelf<'a, R, I> {
    ghost contents = { λ _ _. None };

    ghost unread = { λ s. if s.is_input then None else ⟦<FileShelf<'a, R> as Shelf>⟧.unread s.files };

    ghost begun = { λ s. s.begun };

    ghost fault_at = { λ s. s.fault_at };

    ghost fault_kind = { λ s. s.fault_kind };

    ghost faults = { λ s. s.faults };

    fn last_fault(&self) -> FaultKind {
        self.fault_kind
    }

    fn begin(&mut self, name: &str, number: u32) -> Result<(), Failed> {
        self.begun = number;
        self.is_input = name == "-";
        if self.is_input {
            return Ok(());
        }
        if let Ok(()) = self.files.begin(name, number) {
            return Ok(());
        }
        self.fault_at = number;
        self.fault_kind = self.files.last_fault();
        self.faults = self.faults.saturating_add(1);
        Err(Failed)
    }

    fn read(&mut self, buf: &mut [u8]) -> Result<usize, Failed> {
        if self.is_input {
            if let Some(count) = read_some(&mut self.input, buf) {
                return Ok(count);
            }
            self.fault_kind = FaultKind::Other;
        } else {
            if let Ok(count) = self.files.read(buf) {
                return Ok(count);
            }
            self.fault_kind = self.files.last_fault();
        }
        self.fault_at = self.begun;
        self.faults = self.faults.saturating_add(1);
        Err(Failed)
    }
}
