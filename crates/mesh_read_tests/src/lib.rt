//! Tests of the crates for meshes with fractions: files, numbers, grids and rounding, each subject by calls from outside.
#![tactic(auto)]

#[cfg(test)]
mod fans;
#[cfg(test)]
mod files;
#[cfg(test)]
mod floats;
#[cfg(test)]
mod formats;
#[cfg(test)]
mod glb;
#[cfg(test)]
mod gltf_files;
#[cfg(test)]
mod grids;
#[cfg(test)]
mod numbers;
#[cfg(test)]
mod off_files;
#[cfg(test)]
mod pages;
#[cfg(test)]
mod ply_files;
#[cfg(test)]
mod roundings;
#[cfg(test)]
mod steps;
#[cfg(test)]
mod stl_files;
#[cfg(test)]
mod wavefront_files;
