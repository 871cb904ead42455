//! Tests of points by their floors, at small numbers and at the greatest ones.
#![tactic(auto)]

#[cfg(test)]
mod orders;
#[cfg(test)]
mod sides;
#[cfg(test)]
mod turns;
