//! A stripe over a disk in memory, behind a real gate: small scripts of writes that fail or are torn, and what they leave.
#![tactic(auto)]

#[cfg(test)]
mod benches;
#[cfg(test)]
mod commands;
#[cfg(test)]
mod scripts;
