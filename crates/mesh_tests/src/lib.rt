//! Tests of the second program's top call over devices in memory whose calls fail.
//! `tests/run_mesh` runs the built program.
#![tactic(auto)]

#[cfg(test)]
mod boxes;
#[cfg(test)]
mod calls;
#[cfg(test)]
mod devices;
#[cfg(test)]
mod outputs;
