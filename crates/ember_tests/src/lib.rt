//! Tests of the top call over devices in memory: devices that fail, threads, sizes, prefixes of a
//! file. `tests/run` runs the built program.
#![tactic(auto)]

#[cfg(test)]
mod calls;
#[cfg(test)]
mod devices;
#[cfg(test)]
mod faults;
#[cfg(test)]
mod files;
#[cfg(test)]
mod prefixes;
#[cfg(test)]
mod sizes;
#[cfg(test)]
mod statuses;
#[cfg(test)]
mod texts;
#[cfg(test)]
mod threads;
