// Tests of corners in the user's unit, and of the texts of meshes, by calls from outside.

#[cfg(test)]
mod facings;
#[cfg(test)]
mod moves;
#[cfg(test)]
mod texts;
#[cfg(test)]
mod written;
