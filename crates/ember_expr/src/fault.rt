// Why a text is no expression.
ghost use Rattle.std.specs.Prelude.{◌≡◌};
ghost use Rattle.ember_expr.specs.declared.fault.ExprFault.TheVariants.{OutOfMemory};

use std::alloc::{AllocError, AllocFailed};
use thiserror::Error;

/// Why a text is no expression. Places are those of a token's first byte, counted from 0. The
/// program doesn't print these texts, but its own: see `src/lines.rt` of ember_verdict.
#[derive(Clone, Copy, Debug, PartialEq, Eq, Error)]
pub enum ExprFault {
    /// The token at this place is wrong there; the text's length if the text ends too early.
    #[error("syntax at {0}")]
    Syntax(u32),
    /// The `(` or `!` at this place is inside 64 others.
    #[error("deep at {0}")]
    Deep(u32),
    /// There is no mesh of this number.
    #[error("no mesh {0}")]
    NoMesh(u32),
    /// The number at this place, or that of its mesh, is above 1,000,000.
    #[error("number at {0}")]
    Number(u32),
    /// The text has more than 4096 bytes.
    #[error("long")]
    Long,
    #[error("out of memory")]
    OutOfMemory,
}

impl From<AllocError> for ExprFault {
    ghost from_gives = { λ _ e. e ≡ OutOfMemory };

    fn from(_e: AllocError) -> ExprFault {
        ExprFault::OutOfMemory
    }
}

impl<T: Drop> From<AllocFailed<T>> for ExprFault {
    ghost from_gives = { λ _ e. e ≡ OutOfMemory };

    fn from(_e: AllocFailed<T>) -> ExprFault {
        ExprFault::OutOfMemory
    }
}
