//! Scripts over disks, bays and files: small lists of calls, and what they leave.
#![tactic(auto)]

#[cfg(test)]
mod adapters;
#[cfg(test)]
mod bay_loans;
#[cfg(test)]
mod failed_syncs;
#[cfg(test)]
mod file_loans;
#[cfg(test)]
mod fuses;
#[cfg(test)]
mod plain_disks;
#[cfg(test)]
mod tears;
