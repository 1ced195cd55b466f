//! The command stream: which lines it has, which commands they spell, and the rounds that a source gives.
#![tactic(auto)]

mod counts;
mod example_laws;
mod forms;
mod gathering;
mod kinds;
mod numbers;
mod progress;
mod round;
mod rounds;
mod says;
mod stream_reader;
mod taking;

pub use era_model::{Command, Request, Task};
pub use example_laws::{
    last_round_has_a_command, limits_are_tight, line_is_refused_by_its_first_kind,
    line_without_a_form_is_unknown, numbers_go_on_over_rounds,
    round_of_a_refused_line_is_not_there,
};
pub use kinds::kind_text;
pub use round::{CommandList, LineError, LineKind, PlanError, Round};
pub use rounds::next_round;
pub use stream_reader::Lines;
