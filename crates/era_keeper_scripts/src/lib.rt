//! A keeper over a metadata disk in memory, behind a real gate: small scripts of its calls with one or more failing calls of
//! the disk, and what a crash leaves of them.
#![tactic(auto)]

#[cfg(test)]
mod benches;
#[cfg(test)]
mod commands;
#[cfg(test)]
mod rows;
#[cfg(test)]
mod scripts;
#[cfg(test)]
mod stories;
#[cfg(test)]
mod sweeps;
