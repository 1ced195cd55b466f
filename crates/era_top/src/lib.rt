//! The top call: one run of the program, from its words to the bytes on the devices.
#![tactic(auto)]

mod events;
mod origin;
mod outcome;
mod progress;
mod refusal;
mod replies;
mod round;
mod run;
mod served;
mod session;
mod session_lines;
mod tool;
mod top;

pub use tool::era_tool;
pub use top::era_top;
