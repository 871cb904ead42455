// Tests of files that are written whole, by calls from outside.

#[cfg(test)]
mod several_files;
#[cfg(test)]
mod whole_files;
