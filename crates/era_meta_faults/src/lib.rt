//! Sweeps over the metadata on a disk in memory: a run is stopped at each write and each sync, and a look finds the state
//! before the call that was stopped, or behind it.
#![tactic(auto)]

#[cfg(test)]
mod calls;
#[cfg(test)]
mod images;
#[cfg(test)]
mod own_reading;
#[cfg(test)]
mod runs;
#[cfg(test)]
mod scripts;
#[cfg(test)]
mod sweeps;
#[cfg(test)]
mod values;
