//! Tests of the numbers of both widths, by calls through the trait.
#![tactic(auto)]

#[cfg(test)]
mod broad_meets;
#[cfg(test)]
mod broad_sides;
#[cfg(test)]
mod narrow_points;
#[cfg(test)]
mod planes;
