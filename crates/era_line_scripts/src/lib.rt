//! Lines and words: texts that are read and written, and spellings of the command line.
#![tactic(auto)]

#[cfg(test)]
mod reading;
#[cfg(test)]
mod spellings;
#[cfg(test)]
mod texts;
