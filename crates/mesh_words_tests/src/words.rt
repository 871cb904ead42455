// Tests of the second program's command lines, by calls from outside.

#[cfg(test)]
mod command_lines;
#[cfg(test)]
mod refusals;
#[cfg(test)]
mod written_over;
