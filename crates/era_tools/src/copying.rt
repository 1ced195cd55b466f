//! Gives the blocks of an origin with their bytes. It takes no memory.

ghost use Rattle.std.specs.Prelude.{◌≡◌, ◌<◌, [], ◌∷◌, length};
ghost use Rattle.std.specs.List.{All};
ghost use Rattle.era_base.specs.CrashModel.{LiesOn};
ghost use Rattle.era_base.specs.Geometry.{blocks_of};
ghost use Rattle.era_tools.specs.BackupTool.{CopiesBlocks, CopiesSectors, HasOutputCause};

use crate::copy_error::CopyError;
use era_base::{Disk, Geometry, Sink};
use era_line::Part::{Hex, Number, Text};
use era_line::{TextBuffer, give_parts};

/// Room for the bytes of a block.
pub const ROOM: usize = 65_536;

/// Gives the line of a block that lies so on a disk.
fn copy_sectors<K: Sink, D: Disk>(
    text: &mut TextBuffer,
    sink: &mut K,
    disk: &mut D,
    block: u32,
    first: u64,
    bytes: &mut [u8],
) -> Result<(), CopyError>
    requires { LiesOn (D.sectors disk.old) first (length bytes.old) }
    ensures copied { CopiesSectors D.Disk block first (length bytes.old) disk.old disk.new
        (K.given sink.old) (K.given sink.new) text.old text.new result }
    ensures sink { HasOutputCause (K.faults sink.old) (K.faults sink.new) result }
{
    let Ok(()) = disk.read(first, bytes) else {
        return Err(CopyError::Origin(disk.faults()));
    };
    let parts = [
        Number(u64::from(block)),
        Text(b" "),
        Hex(bytes),
        Text(b"\n"),
    ];
    let Ok(()) = give_parts(text, sink, &parts) else {
        return Err(CopyError::Output);
    };
    Ok(())
}

/// Gives the line of a block. The room is for the bytes of one block.
fn copy_block<K: Sink, D: Disk>(
    text: &mut TextBuffer,
    sink: &mut K,
    disk: &mut D,
    geometry: &Geometry,
    block: u32,
    room: &mut [u8],
) -> Result<(), CopyError>
    requires block { block < blocks_of geometry.now.sectors geometry.now.block_sectors }
    requires size { D.sectors disk.old ≡ geometry.now.sectors }
    requires room { length room.old ≡ 65536 }
    ensures copied { CopiesBlocks D.Disk geometry.now.sectors geometry.now.block_sectors
        (block ∷ []) disk.old disk.new
        (K.given sink.old) (K.given sink.new) text.old text.new result }
    ensures room { length room.new ≡ 65536 }
    ensures sink { HasOutputCause (K.faults sink.old) (K.faults sink.new) result }
{
    let (first, sectors) = geometry.span(block);
    copy_sectors(
        text,
        sink,
        disk,
        block,
        first,
        &mut room[..sectors as usize * 512],
    )
}

/// Gives the lines of blocks, up to the first where the origin or the sink fails. The room is for the bytes of one block.
pub fn copy_blocks<K: Sink, D: Disk>(
    text: &mut TextBuffer,
    sink: &mut K,
    disk: &mut D,
    geometry: &Geometry,
    blocks: &[u32],
    room: &mut [u8],
) -> Result<(), CopyError>
    requires within { All
        (λ block. block < blocks_of geometry.now.sectors geometry.now.block_sectors) blocks.now }
    requires size { D.sectors disk.old ≡ geometry.now.sectors }
    requires room { length room.old ≡ 65536 }
    ensures copied { CopiesBlocks D.Disk geometry.now.sectors geometry.now.block_sectors
        blocks.now disk.old disk.new
        (K.given sink.old) (K.given sink.new) text.old text.new result }
    ensures sink { HasOutputCause (K.faults sink.old) (K.faults sink.new) result }
{
    for block in blocks {
        match copy_block(text, sink, disk, geometry, *block, room) {
            Ok(()) => {}
            Err(error) => return Err(error),
        }
    }
    Ok(())
}
