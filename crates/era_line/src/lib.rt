//! Texts: lines and words that are read, the texts of tables, messages and states, and text on its way to a sink.
#![tactic(auto)]

mod decimal;
pub mod laws;
mod message;
mod moved;
mod next;
mod parts;
mod reader;
mod status_line;
mod table_line;
mod text_buffer;
mod words;

pub use decimal::{read_decimal, read_u32};
pub use message::{Message, message_text, read_message};
pub use next::{Next, ReadError};
pub use parts::{Part, give_parts};
pub use reader::LineReader;
pub use status_line::{read_status, status_text};
pub use table_line::{LineFault, TableLine, read_table, write_table};
pub use text_buffer::TextBuffer;
pub use words::{cut_at, split_number, split_u32, split_word};
