//! Gives the text of a backup, and tells how the run ended.

ghost use Rattle.std.specs.Prelude.{◌≡◌, length};
ghost use Rattle.era_base.specs.Faults.{HasCause};
ghost use Rattle.era_line.specs.TextBuffer.{Adds};
ghost use Rattle.era_tools.specs.BackupText.{backup_head};
ghost use Rattle.era_tools.specs.BackupTool.{EndsText, OnlyReads, PrintsCopies};
ghost use Rattle.era_tools.specs.Printing.{HasSinkCause};
ghost use Rattle.era_tools.specs.ToolLines.{number_line};

use crate::copy_error::CopyError;
use crate::copying::copy_blocks;
use crate::listing::Listing;
use crate::status::Status;
use era_base::{Disk, Failed, Sink};
use era_line::Part::{Number, Text};
use era_line::{TextBuffer, give_parts};

/// Gives the first line.
fn give_head<K: Sink>(
    text: &mut TextBuffer,
    sink: &mut K,
    listing: &Listing,
    since: u32,
) -> Result<(), Failed>
    ensures added { Adds (K.given sink.old) text.old (K.given sink.new) text.new
        (backup_head listing.now since) result }
    ensures cause { HasCause (K.faults sink.old) (K.faults sink.new) result }
{
    let parts = [
        Text(b"erabackup 1 "),
        Number(listing.geometry.sectors),
        Text(b" "),
        Number(u64::from(listing.geometry.block_sectors)),
        Text(b" "),
        Number(u64::from(since)),
        Text(b" "),
        Number(u64::from(listing.era)),
        Text(b"\n"),
    ];
    give_parts(text, sink, &parts)
}

/// Gives the last line and what is held of the text, and tells how the run ended.
fn end_text<K: Sink>(
    text: &mut TextBuffer,
    sink: &mut K,
    word: &[u8],
    number: u64,
    ended: Status,
) -> Status
    requires { ended ≡ Status.Sink → ⊥ }
    ensures ended { EndsText (K.given sink.old) text.old (K.given sink.new)
        (number_line word.now number) ended result }
    ensures sink { HasSinkCause (K.faults sink.old) (K.faults sink.new) result }
{
    let Ok(()) = give_parts(text, sink, &[Text(word), Number(number), Text(b"\n")]) else {
        return Status::Sink;
    };
    let Ok(()) = text.flush(sink) else {
        return Status::Sink;
    };
    ended
}

/// Gives the text of a backup of the listed blocks of a disk. The room is for the bytes of one block.
pub fn print_copies<K: Sink, D: Disk>(
    sink: &mut K,
    disk: &mut D,
    listing: &Listing,
    since: u32,
    room: &mut [u8],
) -> Status
    requires size { D.sectors disk.old ≡ listing.now.geometry.sectors }
    requires room { length room.old ≡ 65536 }
    ensures printed { PrintsCopies D.Disk listing.now since disk.old disk.new
        (K.given sink.old) (K.given sink.new) result }
    ensures only { OnlyReads D.Disk disk.old disk.new }
    ensures sink { HasSinkCause (K.faults sink.old) (K.faults sink.new) result }
{
    let mut text = TextBuffer::new();
    let Ok(()) = give_head(&mut text, sink, listing, since) else {
        return Status::Sink;
    };
    let blocks = listing.blocks.as_slice();
    match copy_blocks(&mut text, sink, disk, &listing.geometry, blocks, room) {
        Ok(()) => end_text(&mut text, sink, b"end ", blocks.len() as u64, Status::Done),
        Err(CopyError::Origin(count)) => {
            end_text(&mut text, sink, b"fault data ", count, Status::Fault)
        }
        Err(CopyError::Output) => Status::Sink,
    }
}
