//! Rows of dump texts: what they are read as, what is written again, and where they are refused.
#![tactic(auto)]

#[cfg(test)]
mod fronts;
#[cfg(test)]
mod memory;
#[cfg(test)]
mod refusals;
#[cfg(test)]
mod streams;
#[cfg(test)]
mod texts;
#[cfg(test)]
mod whole;
