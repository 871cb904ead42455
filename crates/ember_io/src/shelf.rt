// Sources of named files, read one at a time. `ReadsAtMost`, `ReadConsumes` and `IsAtEnd` are words
// of Rattle's library; `rt lemma NAME` prints their definitions.
ghost use Rattle.std.specs.Prelude.{◌≡◌, ◌<◌, ◌≤◌, ◌+◌, ◌^◌, List, ℕ, [], length, Some, IfOk, OnOk, OnErr, IsErrOf};
ghost use Rattle.std.specs.declared.option.Option.{Option};
ghost use Rattle.std.specs.Io.{ReadsAtMost};
ghost use Rattle.std.specs.Io.KnownBytes.{ReadConsumes, IsAtEnd};
ghost use Rattle.ember_io.specs.Causes.{HasRisen, HasCause};
ghost use Rattle.ember_io.specs.Shelves.{Tells, TellsMore, MarksFault};

use crate::Failed;
use std::alloc::Global;
use thiserror::Error;

/// Why a file can't be read.
#[derive(Clone, Copy, Debug, PartialEq, Eq)]
pub enum FaultKind {
    /// There is no file of that name.
    NotFound,
    /// It may not be read.
    Forbidden,
    /// It is a folder.
    Folder,
    /// Any other reason.
    Other,
}

/// A source of named files; the one begun last is read. At the start no bytes are unread, and the
/// numbers of the last `begin` and of the last fault are 0.
pub trait Shelf {
    ghost use Rattle.ember_io.specs.declared.shelf.FaultKind.{FaultKind};

    /// The bytes of each name, if they are told.
    ghost contents: { Self → List ℕ → Option (List ℕ) };

    /// The bytes of the file begun last that are still unread, if they are told.
    ghost unread: { Self → Option (List ℕ) };

    /// The number that the last `begin` was given.
    ghost begun: { Self → ℕ };

    /// The number of the file at which the last fault occurred.
    ghost fault_at: { Self → ℕ };

    /// Of which kind the last fault was.
    ghost fault_kind: { Self → FaultKind };

    /// How often it has failed. This number never falls; at the greatest `u64` it stays.
    ghost faults: { Self → ℕ };

    /// Of which kind the last fault was. If there was none, it may be any.
    fn last_fault(&self) -> FaultKind
        ensures { result ≡ fault_kind self.now };

    /// Begins the file of that name, under the caller's number for it.
    fn begin(&mut self, name: &str, number: u32) -> Result<(), Failed>
        ensures contents { contents self.new ≡ contents self.old }
        ensures begun { begun self.new ≡ number }
        ensures bytes { OnOk result (unread self.new ≡ contents self.old name.now) }
        ensures none_left { OnErr result (unread self.new ≡ Some []) }
        ensures cause { HasCause (faults self.old) (faults self.new) result }
        ensures mark { MarksFault (fault_at self.old) (fault_at self.new) number result };

    /// Puts the next bytes at the front of a buffer and returns how many: none only at the end of
    /// the file, or for an empty buffer.
    fn read(&mut self, buf: &mut [u8]) -> Result<usize, Failed>
        ensures contents { contents self.new ≡ contents self.old }
        ensures begun { begun self.new ≡ begun self.old }
        ensures bound { ReadsAtMost result buf.new }
        ensures bytes { ReadConsumes (unread self.old) (unread self.new) result buf.new }
        ensures cause { HasCause (faults self.old) (faults self.new) result }
        ensures mark { MarksFault (fault_at self.old) (fault_at self.new) (begun self.old) result };
}

/// Why a file wasn't read whole.
#[derive(Clone, Copy, Debug, PartialEq, Eq, Error)]
pub enum ReadEnd {
    /// A call of the shelf failed.
    #[error("cannot be read")]
    ReadFault,
    /// The file has at least this many bytes, which is one more than are allowed.
    #[error("{0} bytes or more")]
    TooLong(u64),
    /// There was no memory for the bytes.
    #[error("out of memory")]
    OutOfMemory,
}

// How many bytes are asked for at once.
const PIECE: usize = 65536;

/// Begins the file of that name under that number, and reads it to its end: at most `most` bytes. A
/// call of the shelf that fails is `ReadFault`. A longer file is `TooLong`, with `most + 1`.
pub fn read_all<S: Shelf>(
    alloc: Global,
    shelf: &mut S,
    name: &str,
    number: u32,
    most: u64,
) -> Result<Vec<u8>, ReadEnd>
    requires { most < 2 ^ 63 }

    ensures contents { S.contents shelf.new ≡ S.contents shelf.old }
    ensures begun { S.begun shelf.new ≡ number }
    ensures whole { IfOk result (λ v. Tells (S.contents shelf.old name.now) v.items) }
    ensures most { IfOk result (λ v. length v.items ≤ most) }
    ensures at_end { OnOk result (IsAtEnd (S.unread shelf.new)) }

    ensures later { S.faults shelf.old ≤ S.faults shelf.new }
    ensures read_fault { IsErrOf result ReadEnd.ReadFault → HasRisen (S.faults shelf.old) (S.faults shelf.new) }
    ensures fault_at { IsErrOf result ReadEnd.ReadFault → S.fault_at shelf.new ≡ number }
    ensures unmarked { ¬ (IsErrOf result ReadEnd.ReadFault) → S.fault_at shelf.new ≡ S.fault_at shelf.old }

    ensures too_long { (n : ℕ) → IsErrOf result (ReadEnd.TooLong n) → (n ≡ most + 1) }
    ensures told_longer { (n : ℕ) → IsErrOf result (ReadEnd.TooLong n) →
        TellsMore (S.contents shelf.old name.now) most }
{
    let Ok(()) = shelf.begin(name, number) else {
        return Err(ReadEnd::ReadFault);
    };
    let mut bytes = Vec::new(alloc);
    let mut piece = [0u8; PIECE];
    loop {
        let Ok(count) = shelf.read(&mut piece) else {
            return Err(ReadEnd::ReadFault);
        };
        if count == 0 {
            return Ok(bytes);
        }
        let length = bytes.len() as u64 + count as u64;
        if length > most {
            return Err(ReadEnd::TooLong(most + 1));
        }
        if bytes.extend_from_slice(&piece[..count]).is_err() {
            return Err(ReadEnd::OutOfMemory);
        }
    }
}
