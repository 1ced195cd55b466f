//! Schedules of the pure machine and plain calls: small lists of steps, and which of them it accepts.
#![tactic(auto)]

#[cfg(test)]
mod accepted_schedules;
#[cfg(test)]
mod chains;
#[cfg(test)]
mod crash_schedules;
#[cfg(test)]
mod metadata_schedules;
#[cfg(test)]
mod moves;
#[cfg(test)]
mod plain_calls;
#[cfg(test)]
mod small_events;
#[cfg(test)]
mod small_images;
#[cfg(test)]
mod small_lists;
#[cfg(test)]
mod small_sessions;
#[cfg(test)]
mod tables;
#[cfg(test)]
mod write_schedules;
