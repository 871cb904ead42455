// The truth of expressions if the winding numbers of some meshes are undecided.
ghost use Rattle.ember_expr.specs.Truth.{AreCounts};

use crate::scenes::expression;
use ember_known::{Mask, known};
use ember_model::Vector;
use std::test::Fail;

// The winding numbers 1 and 0.
fn one_and_zero() -> Vector
    ensures { AreCounts result.counts }
{
    let mut counts = [0; 64];
    counts[0] = 1;
    Vector { counts }
}

static DECIDED_OR_NOT: [(&str, u32, Option<bool>); 11] = [
    ("m1|m2", 2, Some(true)),
    ("m1&m2", 2, None),
    ("w1+w2=2", 2, None),
    ("m1", 2, Some(true)),
    ("m1&1=2", 1, Some(false)),
    ("0*w1=0", 1, None),
    ("m2|m1", 2, Some(true)),
    ("m2&!m1", 2, Some(false)),
    ("m1^m2", 2, None),
    ("!m2", 2, None),
    ("odd(w1+3)^m1", 2, Some(true)),
];

#[test]
fn decided_or_not(rt: HostRuntime) -> Result<(), Fail> {
    for &(text, undecided, want) in &DECIDED_OR_NOT {
        let e = expression(rt.alloc(), text.as_bytes(), 2)?;
        let m = Mask::none().with(undecided);
        assert!(rt; known(&e, &one_and_zero(), &m) == want);
    }
    Ok(())
}
