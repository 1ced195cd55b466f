//! The tools on closed images: each writes its text and tells how it ended.
#![tactic(auto)]

mod backing_up;
mod backup_text;
mod block_lines;
mod checked_text;
mod copy_error;
mod copying;
mod dump_text;
mod images;
mod kinds;
pub mod laws;
mod list_text;
mod listed;
mod listing;
mod needs;
mod opening;
mod printing;
mod refusal;
mod refusing;
mod refusing_text;
mod restoring;
mod status;

pub use backing_up::backup;
pub use block_lines::print_blocks;
pub use checked_text::print_checked;
pub use dump_text::{print_dump, print_marks};
pub use images::{check, dump, invalidate};
pub use kinds::{damage_text, dump_kind_text};
pub use list_text::print_list;
pub use needs::need;
pub use printing::print;
pub use refusal::Refusal;
pub use refusing::refuse;
pub use refusing_text::refuse_text;
pub use restoring::restore;
pub use status::{Status, number};
