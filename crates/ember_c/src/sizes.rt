// The structs have the sizes that C gives those of include/ember.h (tests/check_library has the same numbers).
use crate::answer::Answer;
use crate::blocks::{Block, NamedBlock};
use crate::solid::{Numbers, Solid};
use ember_arrays::ArraySource;
use ember_call::{Lent, LentFile};
use mesh_arrays::ArrayMesh;
use std::mem::{align_of, size_of};

#[test]
fn what_a_caller_lends_has_the_sizes_of_the_header(rt: HostRuntime) {
    assert!(rt; size_of::<Lent>() == 16);
    assert!(rt; size_of::<LentFile>() == 32);
    assert!(rt; size_of::<ArrayMesh>() == 32);
}

#[test]
fn what_a_caller_gets_has_the_sizes_of_the_header(rt: HostRuntime) {
    assert!(rt; size_of::<Block>() == 16);
    assert!(rt; size_of::<NamedBlock>() == 32);
    assert!(rt; size_of::<ArraySource>() == 12);
    assert!(rt; size_of::<Answer>() == 64);
    assert!(rt; size_of::<Solid>() == 192);
    assert!(rt; align_of::<Answer>() == 8);
    assert!(rt; align_of::<Solid>() == 8);
}

// From the step to the end: the last fields of `ember_solid`.
#[test]
fn the_numbers_of_a_solid_are_fifteen_words(rt: HostRuntime) {
    assert!(rt; size_of::<Numbers>() == 15 * 8);
    assert!(rt; align_of::<Numbers>() == 8);
}
