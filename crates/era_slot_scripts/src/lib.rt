//! Scripts over two slots on a disk in memory: small lists of calls, and what they leave.
#![tactic(auto)]

#[cfg(test)]
mod slot_bytes;
#[cfg(test)]
mod slot_calls;
#[cfg(test)]
mod slot_commits;
#[cfg(test)]
mod slot_disks;
#[cfg(test)]
mod slot_subsets;
#[cfg(test)]
mod slot_wipes;
