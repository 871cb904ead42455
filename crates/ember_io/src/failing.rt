// Calls of a device in memory that are to fail.
ghost use Rattle.std.specs.Prelude.{IsTrue, Contains, ◌↔◌};

use crate::Calls;

/// Whether the call of this number, from 1, is to fail.
pub fn is_failing(failing: &Calls, call: u64) -> bool
    ensures { IsTrue result ↔ Contains failing.now call }
{
    failing.items().contains(&call)
}
