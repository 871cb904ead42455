//! Tests of both programs as functions, and of Booleans over arrays. `tests/check_library` tries the same through
//! C.
#![tactic(auto)]

#[cfg(test)]
mod arrays;
#[cfg(test)]
mod boxes;
#[cfg(test)]
mod commands;
