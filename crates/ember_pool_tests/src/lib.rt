//! Tests of what runs boxes: the box core, steps, parts in the order of the tree, and workers.
#![tactic(auto)]

#[cfg(test)]
mod box_core;
#[cfg(test)]
mod jobs;
#[cfg(test)]
mod parts;
#[cfg(test)]
mod pool;
