//! Tests of certificates, of triangles and their sources, and of corners as they are written.
#![tactic(auto)]

mod triangles;
mod written;
