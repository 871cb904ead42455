// Outputs that take bytes. `WritesAtMost`, `WriteAppends` and `Appends` are words of Rattle's
// library: docs/trust/TRUST.md explains `Appends`, and `rt lemma NAME` prints their definitions.
ghost use Rattle.std.specs.Prelude.{◌≡◌, ◌<◌, ◌≤◌, List, ℕ, length, IfOk, OnOk, OnErr};
ghost use Rattle.std.specs.declared.option.Option.{Option};
ghost use Rattle.std.specs.Io.{WritesAtMost};
ghost use Rattle.std.specs.Io.KnownBytes.{WriteAppends, Appends};
ghost use Rattle.ember_io.specs.Causes.{HasCause};
ghost use Rattle.ember_io.specs.Sinks.{IsFlushed, AppendsPrefix};

use crate::Failed;
use thiserror::Error;

/// An output that takes bytes and flushes them.
pub trait Sink {
    /// The bytes taken so far, if they are told.
    ghost taken: { Self → Option (List ℕ) };

    /// How many of them are flushed.
    ghost flushed: { Self → ℕ };

    /// How often it has failed. This number never falls; at the greatest `u64` it stays.
    ghost faults: { Self → ℕ };

    /// Takes bytes from the front of a piece and returns how many: none only of an empty piece.
    /// This promises no flush: the number of flushed bytes doesn't grow.
    fn write(&mut self, piece: &[u8]) -> Result<usize, Failed>
        ensures bound { WritesAtMost result piece.now }
        ensures some { IfOk result (λ n. 0 < length piece.now → 0 < n) }
        ensures bytes { WriteAppends (taken self.old) (taken self.new) result piece.now }
        ensures flushed { flushed self.new ≤ flushed self.old }
        ensures cause { HasCause (faults self.old) (faults self.new) result };

    /// Flushes all bytes taken.
    fn flush(&mut self) -> Result<(), Failed>
        ensures bytes { taken self.new ≡ taken self.old }
        ensures flushed { OnOk result (IsFlushed (taken self.new) (flushed self.new)) }
        ensures unflushed { OnErr result (flushed self.new ≤ flushed self.old) }
        ensures cause { HasCause (faults self.old) (faults self.new) result };
}

/// A call of the sink failed.
#[derive(Clone, Copy, Debug, PartialEq, Eq, Error)]
#[error("cannot be written")]
pub struct WriteFault;

/// Writes all the bytes, and flushes. The error means that a call of the sink failed; then the sink
/// has taken a prefix of the bytes.
pub fn write_all<O: Sink>(sink: &mut O, bytes: &[u8]) -> Result<(), WriteFault>
    ensures taken { OnOk result (Appends (O.taken sink.old) (O.taken sink.new) bytes.now) }
    ensures flushed { OnOk result (IsFlushed (O.taken sink.new) (O.flushed sink.new)) }
    ensures prefix { OnErr result (AppendsPrefix (O.taken sink.old) (O.taken sink.new) bytes.now) }
    ensures unflushed { OnErr result (O.flushed sink.new ≤ O.flushed sink.old) }
    ensures cause { HasCause (O.faults sink.old) (O.faults sink.new) result }
{
    let mut rest = bytes;
    while !rest.is_empty() {
        let Ok(count) = sink.write(rest) else {
            return Err(WriteFault);
        };
        rest = rest.split_at(count).1;
    }
    let Ok(()) = sink.flush() else {
        return Err(WriteFault);
    };
    Ok(())
}
