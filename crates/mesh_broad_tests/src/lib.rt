//! Tests of the numbers of corners on the broad grid, at small numbers and at the greatest ones.
#![tactic(auto)]

#[cfg(test)]
mod floats;
#[cfg(test)]
mod points;
#[cfg(test)]
mod remainders;
#[cfg(test)]
mod wholes;
