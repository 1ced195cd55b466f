//! Scripts over the metadata on a disk in memory: small lists of calls, and what they leave.
#![tactic(auto)]

#[cfg(test)]
mod meta_crashes;
#[cfg(test)]
mod meta_damage;
#[cfg(test)]
mod meta_disks;
#[cfg(test)]
mod meta_openings;
