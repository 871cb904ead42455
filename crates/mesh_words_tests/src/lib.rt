//! Tests of the command line of ember-mesh, of the files that it writes, and of the progress that it shows.
#![tactic(auto)]

#[cfg(test)]
mod progress;
mod target;
mod words;
