//! Tests of placed surfaces: steps as text, their maps, and the images of vertices and triangles.
#![tactic(auto)]

#[cfg(test)]
mod files;
#[cfg(test)]
mod placings;
#[cfg(test)]
mod shapes;
#[cfg(test)]
mod texts;
