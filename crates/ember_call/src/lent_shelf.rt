// Files that a caller lends.
ghost use Rattle.std.specs.Prelude.{◌≡◌, ◌↔◌, ◌≤◌, [], length, min, Some, None, IsErr, IsOk, IfOk, OnOk, OnErr, MatchOption};
ghost use Rattle.std.specs.Io.{ReadsAtMost};
ghost use Rattle.std.specs.Io.KnownBytes.{ReadConsumes};
ghost use Rattle.ember_io.specs.Causes.{CountsFault, HasCause};
ghost use Rattle.ember_io.specs.Files.{first_of};
ghost use Rattle.ember_io.specs.Shelves.{MarksFault};
ghost use Rattle.ember_call.specs.Lent.{contents_of, named_bytes};

use crate::lent::LentFile;
use ember_io::{Failed, FaultKind, Shelf};
use std::marker::Model;

/// Files that a caller lends; of those with one name the first counts. A name that no file has is the
/// only fault.
#[derive(Drop)]
pub struct LentShelf<'a> {
    files: &'a [LentFile<'a>],
    unread: &'a [u8],
    begun: u32,
    fault_at: u32,
    faults: u64,
}

impl<'a> Model for LentShelf<'a> {
    ghost use Rattle.ember_call.specs.Lent.{LentState, named_bytes};

    ghost Value = { LentState };

    ghost view = { λ s. record {
      files = named_bytes s.files.now;
      unread = s.unread.now;
      begun = s.begun;
      fault_at = s.fault_at;
      faults = s.faults;
    } };
}

// The bytes of the first file of this name.
fn bytes_of<'a>(files: &'a [LentFile<'a>], name: &[u8]) -> Option<&'a [u8]>
    ensures { MatchOption result (first_of (named_bytes files.now) name.now ≡ None) (λ bytes.
        first_of (named_bytes files.now) name.now ≡ Some bytes.now) }
{
    for file in files {
        if file.name == name {
            return Some(file.bytes);
        }
    }
    None
}

impl<'a> LentShelf<'a> {
    /// A shelf of these files.
    pub fn new(files: &'a [LentFile<'a>]) -> LentShelf<'a>
        ensures { result ≡ record {
          files = named_bytes files.now;
          unread = [];
          begun = 0;
          fault_at = 0;
          faults = 0;
        } }
    {
        LentShelf {
            files,
            unread: &[],
            begun: 0,
            fault_at: 0,
            faults: 0,
        }
    }
}

impl<'a> Shelf for LentShelf<'a> {
    ghost use Rattle.ember_io.specs.declared.shelf.FaultKind.TheVariants.{NotFound};

    ghost contents = { λ s. contents_of s.files };

    ghost unread = { λ s. Some s.unread };

    ghost begun = { λ s. s.begun };

    ghost fault_at = { λ s. s.fault_at };

    ghost fault_kind = { λ _. NotFound };

    ghost faults = { λ s. s.faults };

    fn last_fault(&self) -> FaultKind {
        FaultKind::NotFound
    }

    fn begin(&mut self, name: &str, number: u32) -> Result<(), Failed>
        ensures contents { contents_of self.new.files ≡ contents_of self.old.files }
        ensures begun { self.new.begun ≡ number }
        ensures bytes { OnOk result (Some self.new.unread ≡ contents_of self.old.files name.now) }
        ensures none_left { OnErr result (Some self.new.unread ≡ Some []) }
        ensures cause { HasCause self.old.faults self.new.faults result }
        ensures mark { MarksFault self.old.fault_at self.new.fault_at number result }

        // It fails exactly if no file has the name.
        ensures fails { IsErr result ↔ (first_of self.old.files name.now ≡ None) }
        ensures counts { CountsFault self.old.faults self.new.faults result }
        ensures same { self.new.files ≡ self.old.files }
    {
        self.begun = number;
        match bytes_of(self.files, name.as_bytes()) {
            Some(bytes) => {
                self.unread = bytes;
                Ok(())
            }
            None => {
                self.unread = &[];
                self.fault_at = number;
                self.faults = self.faults.saturating_add(1);
                Err(Failed)
            }
        }
    }

    fn read(&mut self, buf: &mut [u8]) -> Result<usize, Failed>
        ensures contents { contents_of self.new.files ≡ contents_of self.old.files }
        ensures begun { self.new.begun ≡ self.old.begun }
        ensures bound { ReadsAtMost result buf.new }
        ensures bytes { ReadConsumes (Some self.old.unread) (Some self.new.unread) result buf.new }
        ensures cause { HasCause self.old.faults self.new.faults result }
        ensures mark { MarksFault self.old.fault_at self.new.fault_at self.old.begun result }

        // It never fails, and gives as much as fits.
        ensures safe { IsOk result }
        ensures count { IfOk result (λ n. n ≡ min (length buf.old) (length self.old.unread)) }
        ensures same { self.new.files ≡ self.old.files }
    {
        let unread = self.unread;
        let count = buf.len().min(unread.len());
        let (given, rest) = unread.split_at(count);
        buf[..count].copy_from_slice(given);
        self.unread = rest;
        Ok(count)
    }
}
