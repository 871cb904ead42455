//! Tests of signs, planes, points, triangles and polygons: each subject by calls from outside.
#![tactic(auto)]

#[cfg(test)]
mod broad_polygons;
#[cfg(test)]
mod coplanar;
#[cfg(test)]
mod faces;
#[cfg(test)]
mod points;
#[cfg(test)]
mod polygons;
#[cfg(test)]
mod shapes;
#[cfg(test)]
mod signs;
#[cfg(test)]
mod touching;
