//! The gate on one thread and on two: rounds of its calls, and what they leave.
#![tactic(auto)]

#[cfg(test)]
mod rounds;
