//! The metadata disk as bytes: the root, the pages of the era array and of the write sets, and how each can be damaged.
#![tactic(auto)]

mod archive;
mod array_page;
mod bits_page;
mod checker;
mod damage;
mod decoder;
mod encoder;
pub mod laws;
mod lists_checker;
mod numbers;
mod offsets;
mod page_list;
mod page_numbers;
mod root;

pub use archive::{ArchiveList, Archived};
pub use array_page::{check_array_page, encode_array_page, era_at};
pub use bits_page::{bit_at, check_bits_page, encode_bits_page};
pub use checker::{check_held_root, check_root};
pub use damage::{DamageKind, PageError, RootError};
pub use decoder::{decode_held_root, decode_root};
pub use encoder::encode_root;
pub use page_list::{PageList, renumber};
pub use root::Root;
