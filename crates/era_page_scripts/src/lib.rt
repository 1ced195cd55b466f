//! Pages of the metadata disk, and the sets and arrays that they have, against bytes that were written down by hand.
#![tactic(auto)]

#[cfg(test)]
mod era_arrays;
#[cfg(test)]
mod pages;
#[cfg(test)]
mod roots;
#[cfg(test)]
mod write_sets;
