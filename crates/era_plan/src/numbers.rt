//! The numbers of a line: lanes and counts of sectors. Nothing here takes memory.

ghost use Rattle.std.specs.Prelude.{◌≡◌};
ghost use Rattle.era_plan.specs.Numbers.{count_of, era_of, lane_of, sector_of};

use era_line::{read_decimal, read_u32};

/// The number of lanes.
const LANES: u32 = 64;

/// The greatest number of sectors of a read.
const MOST_SECTORS: u32 = 128;

/// The lane that a word is: 0 to 63.
pub fn read_lane(word: &[u8]) -> Option<u32>
    ensures { result ≡ lane_of word.now }
{
    let lane = read_u32(word)?;
    if lane < LANES { Some(lane) } else { None }
}

/// The sector that a word is: any number of 64 bits.
pub fn read_sector(word: &[u8]) -> Option<u64>
    ensures { result ≡ sector_of word.now }
{
    let sector = read_decimal(word)?;
    Some(sector)
}

/// The era that a word is: any number of 32 bits.
pub fn read_era(word: &[u8]) -> Option<u32>
    ensures { result ≡ era_of word.now }
{
    let era = read_u32(word)?;
    Some(era)
}

/// The number of sectors that a word is: 1 to 128.
pub fn read_count(word: &[u8]) -> Option<u32>
    ensures { result ≡ count_of word.now }
{
    let count = read_u32(word)?;
    if count > 0 && count <= MOST_SECTORS {
        Some(count)
    } else {
        None
    }
}
