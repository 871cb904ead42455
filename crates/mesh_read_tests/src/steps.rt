// Steps that decimals spell.
use mesh_grid::{GridStep, step_of};

static DECIMALS_SPELL_STEPS: [(&[u8], u64, u64); 10] = [
    (b"1", 1, 1),
    (b"0.02", 2, 100),
    (b"0.020", 2, 100),
    (b"+00.50", 5, 10),
    (b"1e-12", 1, 1_000_000_000_000),
    (b"25e2", 2500, 1),
    (b"0.00000025e6", 25, 100),
    (b"10", 10, 1),
    (b"1099511627775", 1_099_511_627_775, 1),
    (b"1.099511627775000", 1_099_511_627_775, 1_000_000_000_000),
];

#[test]
fn decimals_spell_steps(rt: HostRuntime) {
    for &(text, numerator, denominator) in &DECIMALS_SPELL_STEPS {
        let want = GridStep {
            numerator,
            denominator,
        };
        assert!(rt; step_of(text) == Some(want));
    }
}

static OTHER_TEXTS_SPELL_NONE: [&[u8]; 11] = [
    b"",
    b"nice",
    b"1,5",
    b"0",
    b"-0.5",
    b"-0",
    b"1e-13",
    b"0.0000000000015",
    b"1099511627776",
    b"1.099511627776",
    b"1e15",
];

#[test]
fn other_texts_spell_none(rt: HostRuntime) {
    for &text in &OTHER_TEXTS_SPELL_NONE {
        assert!(rt; step_of(text) == None);
    }
}
