// Files in memory, with calls that fail on purpose.
ghost use Rattle.std.specs.Prelude.{◌≡◌, ◌<◌, ◌↔◌, [], min, length, Some, IsErr, IfOk, OnOk, OnErr, Contains, if◌then◌else◌};
ghost use Rattle.std.specs.Io.{ReadsAtMost};
ghost use Rattle.std.specs.Io.KnownBytes.{ReadConsumes};
ghost use Rattle.ember_io.specs.Causes.{next_count, HasCause, CountsFault};
ghost use Rattle.ember_io.specs.Files.{first_of};
ghost use Rattle.ember_io.specs.Memory.{IsSameShelf, FailsToBegin, IsKindOfBegin};
ghost use Rattle.ember_io.specs.Shelves.{MarksFault};

use crate::failing::is_failing;
use crate::file_index::{bytes_of, file_index_of, give, past_files};
use crate::shelf::{FaultKind, Shelf};
use crate::{Calls, Failed, FileSet};
use std::alloc::{AllocError, Global};
use std::marker::Model;

/// Files in memory, read in pieces. Calls of `begin` and `read` are numbered together from 1, and
/// those of chosen numbers fail. Only tests use this.
#[derive(Drop)]
pub struct MemoryShelf {
    files: FileSet,
    piece: usize,
    failing: Calls,
    calls: u64,
    file_index: usize,
    at: usize,
    begun: u32,
    fault_at: u32,
    fault_kind: FaultKind,
    faults: u64,
}

impl Model for MemoryShelf {
    ghost use Rattle.std.specs.Prelude.{◌<◌, drop};
    ghost use Rattle.ember_io.specs.Files.{bytes_at};
    ghost use Rattle.ember_io.specs.Memory.{ShelfState};

    ghost Value = { ShelfState };

    ghost view = { λ s. record {
      files = s.files;
      piece = s.piece;
      failing = s.failing;
      calls = s.calls;
      unread = drop s.at (bytes_at s.files s.file_index);
      begun = s.begun;
      fault_at = s.fault_at;
      fault_kind = s.fault_kind;
      faults = s.faults;
    } };

    ghost invariant = { λ s. 0 < s.piece };
}

impl MemoryShelf {
    /// A shelf of these files. A read returns at most `piece` bytes, and the calls whose numbers
    /// are in `failing` fail.
    pub fn new(
        _alloc: Global,
        files: FileSet,
        piece: usize,
        failing: Calls,
    ) -> Result<MemoryShelf, AllocError>
        requires { 0 < piece }
        ensures { IfOk result (λ s. s ≡ record {
          files = files;
          piece = piece;
          failing = failing;
          calls = 0;
          unread = [];
          begun = 0;
          fault_at = 0;
          fault_kind = FaultKind.Other;
          faults = 0;
        }) }
    {
        let file_index = past_files(files.items());
        Ok(MemoryShelf {
            files,
            piece,
            failing,
            calls: 0,
            file_index,
            at: 0,
            begun: 0,
            fault_at: 0,
            fault_kind: FaultKind::Other,
            faults: 0,
        })
    }
}

// Why a file isn't begun by a call that was chosen to fail, or wasn't.
fn kind_of_begin(is_chosen: bool) -> FaultKind
    ensures { result ≡ (if is_chosen then FaultKind.Other else FaultKind.NotFound) }
{
    if is_chosen {
        FaultKind::Other
    } else {
        FaultKind::NotFound
    }
}

impl Shelf for MemoryShelf {
    ghost contents = { λ s. first_of s.files };

    ghost unread = { λ s. Some s.unread };

    ghost begun = { λ s. s.begun };

    ghost fault_at = { λ s. s.fault_at };

    ghost fault_kind = { λ s. s.fault_kind };

    ghost faults = { λ s. s.faults };

    fn last_fault(&self) -> FaultKind {
        self.fault_kind
    }

    fn begin(&mut self, name: &str, number: u32) -> Result<(), Failed>
        ensures contents { first_of self.new.files ≡ first_of self.old.files }
        ensures begun { self.new.begun ≡ number }
        ensures bytes { OnOk result (Some self.new.unread ≡ first_of self.old.files name.now) }
        ensures none_left { OnErr result (Some self.new.unread ≡ Some []) }
        ensures cause { HasCause self.old.faults self.new.faults result }
        ensures mark { MarksFault self.old.fault_at self.new.fault_at number result }

        // It fails exactly at the chosen calls and at unknown names.
        ensures fails { IsErr result ↔ FailsToBegin self.old name.now }
        ensures kind { OnErr result (IsKindOfBegin self.old self.new.fault_kind) }
        ensures counts { CountsFault self.old.faults self.new.faults result }
        ensures calls { self.new.calls ≡ next_count self.old.calls }
        ensures same { IsSameShelf self.old self.new }
    {
        self.calls = self.calls.saturating_add(1);
        self.begun = number;
        self.at = 0;
        self.file_index = past_files(self.files.items());
        let is_chosen = is_failing(&self.failing, self.calls);
        if !is_chosen {
            if let Some(file_index) = file_index_of(self.files.items(), name) {
                self.file_index = file_index;
                return Ok(());
            }
        }
        self.fault_at = number;
        self.fault_kind = kind_of_begin(is_chosen);
        self.faults = self.faults.saturating_add(1);
        Err(Failed)
    }

    fn read(&mut self, buf: &mut [u8]) -> Result<usize, Failed>
        ensures contents { first_of self.new.files ≡ first_of self.old.files }
        ensures begun { self.new.begun ≡ self.old.begun }
        ensures bound { ReadsAtMost result buf.new }
        ensures bytes { ReadConsumes (Some self.old.unread) (Some self.new.unread) result buf.new }
        ensures cause { HasCause self.old.faults self.new.faults result }
        ensures mark { MarksFault self.old.fault_at self.new.fault_at self.old.begun result }

        // It fails exactly at the chosen calls, and otherwise gives as much as fits, up to a piece.
        ensures fails { IsErr result ↔ Contains self.old.failing (next_count self.old.calls) }
        ensures kind { OnErr result (self.new.fault_kind ≡ FaultKind.Other) }
        ensures count { IfOk result (λ n. n ≡ min self.old.piece (min (length buf.old) (length self.old.unread))) }
        ensures counts { CountsFault self.old.faults self.new.faults result }
        ensures calls { self.new.calls ≡ next_count self.old.calls }
        ensures same { IsSameShelf self.old self.new }
    {
        self.calls = self.calls.saturating_add(1);
        if is_failing(&self.failing, self.calls) {
            self.fault_at = self.begun;
            self.fault_kind = FaultKind::Other;
            self.faults = self.faults.saturating_add(1);
            return Err(Failed);
        }
        let rest = bytes_of(self.files.items(), self.file_index);
        let count = give(rest, self.at, self.piece, buf);
        self.at += count;
        Ok(count)
    }
}
