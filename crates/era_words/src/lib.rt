//! The words of the program: which command they are, and what it is to do.
#![tactic(auto)]

mod arguments;
mod command_name;
mod commands;
mod errors;
mod job;
mod jobs;
pub mod laws;
mod read;
mod rules;

pub use errors::WordsError;
pub use job::Job;
pub use read::read_words;
