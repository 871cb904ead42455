//! Tests of the crates from meshes to steps: each subject by calls from outside, over small scenes.
#![tactic(auto)]

#[cfg(test)]
mod balance;
#[cfg(test)]
mod boxes;
#[cfg(test)]
mod broad_boxes;
#[cfg(test)]
mod broad_steps;
#[cfg(test)]
mod generated;
#[cfg(test)]
mod known;
#[cfg(test)]
mod lattice;
#[cfg(test)]
mod leaves;
#[cfg(test)]
mod meshes;
#[cfg(test)]
mod pairs;
#[cfg(test)]
mod references;
#[cfg(test)]
mod scenes;
#[cfg(test)]
mod sides;
#[cfg(test)]
mod steps;
#[cfg(test)]
mod texts;
#[cfg(test)]
mod tree;
#[cfg(test)]
mod visits;
#[cfg(test)]
mod windings;
