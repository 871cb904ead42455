//! Tests of the crates that read and write texts of ember's formats: each subject by calls from outside.
#![tactic(auto)]

#[cfg(test)]
mod commands;
#[cfg(test)]
mod decimals;
#[cfg(test)]
mod documents;
#[cfg(test)]
mod expressions;
#[cfg(test)]
mod face_files;
#[cfg(test)]
mod lists;
#[cfg(test)]
mod objects;
#[cfg(test)]
mod reports;
#[cfg(test)]
mod shapes;
#[cfg(test)]
mod shelves;
#[cfg(test)]
mod sinks;
#[cfg(test)]
mod slices;
#[cfg(test)]
mod texts;
