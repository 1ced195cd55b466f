//! The dump text of marks: it is written and read, and definitions say what such a text is read as.
#![tactic(auto)]

mod dump_head;
mod dump_kind;
mod dump_reader;
pub mod example_laws;
mod first_line;
pub mod laws;
mod line_fault;
mod line_words;
mod lines;
mod lines_taken;
mod merge;
mod reading;
mod runs_taken;
mod section;
mod sets_begun;
mod text_end;
mod whole_dump;
mod writer;

pub use dump_kind::DumpKind;
pub use merge::fold;
pub use section::Section;
pub use text_end::TextEnd;
pub use whole_dump::read_dump;
pub use writer::write_dump;
