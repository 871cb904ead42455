// Files in memory that never fail.
ghost use Rattle.std.specs.Prelude.{◌≡◌, [], min, length, Some, IsOk, IfOk, OnOk, OnErr};
ghost use Rattle.std.specs.Io.{ReadsAtMost};
ghost use Rattle.std.specs.Io.KnownBytes.{ReadConsumes};
ghost use Rattle.ember_io.specs.Causes.{HasCause};
ghost use Rattle.ember_io.specs.Files.{first_or_empty};
ghost use Rattle.ember_io.specs.Shelves.{MarksFault};

use crate::file_index::{bytes_of, file_index_or_end, give, past_files};
use crate::shelf::{FaultKind, Shelf};
use crate::{Failed, FileSet};
use std::alloc::{AllocError, Global};
use std::marker::Model;

/// Files in memory that never fail. A name that isn't there is an empty file. Only tests use this.
#[derive(Drop)]
pub struct SafeShelf {
    files: FileSet,
    file_index: usize,
    at: usize,
    begun: u32,
}

impl Model for SafeShelf {
    ghost use Rattle.std.specs.Prelude.{drop};
    ghost use Rattle.ember_io.specs.Files.{bytes_at};
    ghost use Rattle.ember_io.specs.Memory.{SafeState};

    ghost Value = { SafeState };

    ghost view = { λ s. record {
      files = s.files;
      unread = drop s.at (bytes_at s.files s.file_index);
      begun = s.begun;
    } };
}

impl SafeShelf {
    /// A shelf of these files. It allocates nothing.
    pub fn new(_alloc: Global, files: FileSet) -> Result<SafeShelf, AllocError>
        ensures { IfOk result (λ s. s ≡ record { files = files; unread = []; begun = 0 }) }
    {
        let file_index = past_files(files.items());
        Ok(SafeShelf {
            files,
            file_index,
            at: 0,
            begun: 0,
        })
    }
}

impl Shelf for SafeShelf {
    ghost use Rattle.ember_io.specs.declared.shelf.FaultKind.TheVariants.{Other};

    ghost contents = { λ s. first_or_empty s.files };

    ghost unread = { λ s. Some s.unread };

    ghost begun = { λ s. s.begun };

    ghost fault_at = { λ s. 0 };

    ghost fault_kind = { λ s. Other };

    ghost faults = { λ s. 0 };

    fn last_fault(&self) -> FaultKind {
        FaultKind::Other
    }

    fn begin(&mut self, name: &str, number: u32) -> Result<(), Failed>
        ensures contents { first_or_empty self.new.files ≡ first_or_empty self.old.files }
        ensures begun { self.new.begun ≡ number }
        ensures bytes { OnOk result (Some self.new.unread ≡ first_or_empty self.old.files name.now) }
        ensures none_left { OnErr result (Some self.new.unread ≡ Some []) }
        ensures cause { HasCause 0 0 result }
        ensures mark { MarksFault 0 0 number result }

        ensures safe { IsOk result }
        ensures same { self.new.files ≡ self.old.files }
    {
        self.begun = number;
        self.at = 0;
        self.file_index = file_index_or_end(self.files.items(), name);
        Ok(())
    }

    fn read(&mut self, buf: &mut [u8]) -> Result<usize, Failed>
        ensures contents { first_or_empty self.new.files ≡ first_or_empty self.old.files }
        ensures begun { self.new.begun ≡ self.old.begun }
        ensures bound { ReadsAtMost result buf.new }
        ensures bytes { ReadConsumes (Some self.old.unread) (Some self.new.unread) result buf.new }
        ensures cause { HasCause 0 0 result }
        ensures mark { MarksFault 0 0 self.old.begun result }

        ensures safe { IsOk result }
        ensures count { IfOk result (λ n. n ≡ min (length buf.old) (length self.old.unread)) }
        ensures same { self.new.files ≡ self.old.files }
    {
        let rest = bytes_of(self.files.items(), self.file_index);
        let count = give(rest, self.at, usize::MAX, buf);
        self.at += count;
        Ok(count)
    }
}
