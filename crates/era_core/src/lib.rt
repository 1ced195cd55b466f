//! The pure machine: every order of writers, faults, crashes and reopenings, without a thread or a disk.
#![tactic(auto)]

mod block_lists;
mod block_set;
mod block_table;
mod conditions;
mod copies;
mod core_guard;
mod counts;
mod disk;
mod entries;
mod flights;
mod following;
mod guard;
mod happen;
mod images;
mod laws;
mod lists;
mod lookups;
mod machine;
mod mark_copies;
mod metadata_conditions;
mod present;
mod reads;
mod recovery;
mod reopening;
mod running;
mod step;
mod trace;
mod upkeep;
mod validity;

pub use era_model::Images;
pub use laws::{
    every_legal_history_is_scheduled, every_schedule_is_legal, sessions_stand_by_themselves,
};
pub use machine::Core;
pub use running::run;
pub use step::{CoreStop, Step};
