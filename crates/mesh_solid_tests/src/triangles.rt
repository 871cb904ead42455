// Tests of the crates that make triangles of a document's faces, of their checker, and of the triangles' sources: each
// subject by calls from outside.

#[cfg(test)]
mod broad;
#[cfg(test)]
mod certificates;
#[cfg(test)]
mod cuts;
#[cfg(test)]
mod documents;
#[cfg(test)]
mod faces;
#[cfg(test)]
mod keys;
#[cfg(test)]
mod solids;
#[cfg(test)]
mod sources;
#[cfg(test)]
mod tables;
