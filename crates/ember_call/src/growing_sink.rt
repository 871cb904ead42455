// A stream that is taken into memory.
ghost use Rattle.std.specs.Prelude.{◌≡◌, ◌<◌, ◌↔◌, [], Some, IsTrue};

use ember_io::{Failed, Sink};
use std::alloc::Global;
use std::marker::Model;

/// Takes all bytes into memory, as long as there is some: want of memory is the only fault.
#[derive(Drop)]
pub struct GrowingSink {
    bytes: Vec<u8>,
    flushed: usize,
    faults: u64,
}

impl Model for GrowingSink {
    ghost use Rattle.ember_call.specs.Taken.{GrownState};

    ghost Value = { GrownState };

    ghost view = { λ s. record { bytes = s.bytes.items; flushed = s.flushed; faults = s.faults } };
}

impl GrowingSink {
    /// A sink that has taken nothing.
    pub fn new(alloc: Global) -> GrowingSink
        ensures { result ≡ record { bytes = []; flushed = 0; faults = 0 } }
    {
        GrowingSink {
            bytes: Vec::new(alloc),
            flushed: 0,
            faults: 0,
        }
    }

    /// Whether there was no memory for some of the bytes.
    pub fn lacks_memory(&self) -> bool
        ensures { IsTrue result ↔ (0 < self.now.faults) }
    {
        self.faults > 0
    }

    /// The bytes taken.
    pub fn into_bytes(self) -> Vec<u8>
        ensures { result.items ≡ self.bytes }
    {
        self.bytes
    }
}

impl Sink for GrowingSink {
    ghost taken = { λ s. Some s.bytes };

    ghost flushed = { λ s. s.flushed };

    ghost faults = { λ s. s.faults };

    fn write(&mut self, piece: &[u8]) -> Result<usize, Failed> {
        if self.bytes.extend_from_slice(piece).is_err() {
            self.faults = self.faults.saturating_add(1);
            return Err(Failed);
        }
        Ok(piece.len())
    }

    fn flush(&mut self) -> Result<(), Failed> {
        self.flushed = self.bytes.len();
        Ok(())
    }
}
