// Values, bounds, trees and faults of expressions.
ghost use Rattle.ember_expr.specs.Truth.{AreCounts};

use ember_expr::{ExprFault, Rel, Sum, Tree, bounded, parse, tree, value};
use ember_model::Vector;
use std::alloc::Global;
use std::process::Abort;
use std::test::Fail;

// The winding numbers of two meshes.
fn windings(first: i8, second: i8) -> Vector
    ensures { AreCounts result.counts }
{
    let mut counts = [0; 64];
    counts[0] = i32::from(first);
    counts[1] = i32::from(second);
    Vector { counts }
}

static VALUES: [(&str, i8, i8, bool); 7] = [
    ("2*w1-w2>=1", 1, 1, true),
    ("m1^m2", 1, 1, false),
    ("m1|m2^m2", 1, 1, true),
    ("-w1<0", 1, 1, true),
    ("odd(-w1)", -1, 0, true),
    ("w1!=-1", -1, 0, false),
    ("!m1", -1, 0, true),
];

#[test]
fn values(rt: HostRuntime) -> Result<(), Fail> {
    for &(text, first, second, want) in &VALUES {
        let e = parse(rt.alloc(), text.as_bytes(), 2)?;
        assert!(rt; value(&e, &windings(first, second)) == want);
    }
    Ok(())
}

// Workers share expressions.
fn shared<T: Send + Sync>(value: &T) -> &T {
    value
}

#[test]
fn bounded_or_not(rt: HostRuntime) -> Result<(), Fail> {
    for (text, want) in [("m1", true), ("!m1", false)] {
        let e = parse(rt.alloc(), text.as_bytes(), 2)?;
        assert!(rt; bounded(shared(&e)) == want);
    }
    Ok(())
}

#[test]
fn the_tree_of_a_mesh(rt: HostRuntime) -> Result<(), Fail> {
    let e = parse(rt.alloc(), b"m1", 2)?;
    assert!(rt; matches!(tree(&e), Tree::Mesh(1)));
    Ok(())
}

fn check_terms(rt: &impl Abort, sum: &Sum, want: &[(bool, u32, u32)]) {
    let terms = sum.items();
    assert!(rt; terms.len() == want.len());
    for i in 0..want.len() {
        assert!(rt; (terms[i].minus, terms[i].factor, terms[i].mesh) == want[i]);
    }
}

#[test]
fn the_tree_of_a_comparison(rt: HostRuntime) -> Result<(), Fail> {
    let e = parse(rt.alloc(), b" - 2 * w1 + 3 != w2 ", 2)?;
    let Tree::Compare(left, Rel::NotEqual, right) = tree(&e) else {
        return Err(Fail::from("another tree"));
    };
    check_terms(&rt, left, &[(true, 2, 1), (false, 3, 0)]);
    check_terms(&rt, right, &[(false, 1, 2)]);
    Ok(())
}

// The text is refused over two meshes for this fault.
fn is_refused(alloc: Global, text: &[u8], want: ExprFault) -> bool {
    match parse(alloc, text, 2) {
        Ok(_expr) => false,
        Err(fault) => fault == want,
    }
}

static REFUSED: [(&[u8], ExprFault); 7] = [
    (b"m3", ExprFault::NoMesh(3)),
    (b"w1>", ExprFault::Syntax(3)),
    (b"m1 | 1000001 = w1", ExprFault::Number(5)),
    (b"!m1=w2", ExprFault::Syntax(3)),
    (b"m", ExprFault::Syntax(0)),
    (b"", ExprFault::Syntax(0)),
    (b"m0", ExprFault::NoMesh(0)),
];

#[test]
fn refused(rt: HostRuntime) {
    for &(text, want) in &REFUSED {
        assert!(rt; is_refused(rt.alloc(), text, want));
    }
}

#[test]
fn refused_for_their_size(rt: HostRuntime) -> Result<(), Fail> {
    let mut signs = "!".repeat(rt.alloc(), 65)?;
    signs.push_str("m1")?;
    assert!(rt; is_refused(rt.alloc(), signs.as_bytes(), ExprFault::Deep(64)));
    let long = " ".repeat(rt.alloc(), 4097)?;
    assert!(rt; is_refused(rt.alloc(), long.as_bytes(), ExprFault::Long));
    Ok(())
}

static PLACES_OF_SYNTAX_FAULTS: [(&[u8], u32); 24] = [
    // it ends too early
    (b" ", 1),
    (b"w1", 2),
    (b"(m1 ", 4),
    (b"odd(w1", 6),
    (b"m1|", 3),
    // what follows a whole expression
    (b"m1 m2", 3),
    (b"m1)", 2),
    (b"m1=1", 2),
    (b"1=1=1", 3),
    // a sum has no parentheses, and its first sign is alone
    (b"(1+2)=3", 4),
    (b"1=--1", 3),
    (b"2*3=6", 2),
    (b"w1*2=0", 2),
    (b"odd(m1)", 4),
    (b"odd w1", 4),
    // the longest token is taken
    (b"!!=1", 1),
    (b"1 ! = 2", 2),
    (b"w1<>2", 3),
    (b"m1|odds", 6),
    // an unknown byte, and a letter without a number
    (b"m1\t", 2),
    (b"m1&w", 3),
    (b"m1 & M2", 5),
    // a fault of syntax comes before the others of its token
    (b"m1 m0", 3),
    (b"m1 1000001", 3),
];

#[test]
fn places_of_syntax_faults(rt: HostRuntime) {
    for &(text, place) in &PLACES_OF_SYNTAX_FAULTS {
        assert!(rt; is_refused(rt.alloc(), text, ExprFault::Syntax(place)));
    }
}
