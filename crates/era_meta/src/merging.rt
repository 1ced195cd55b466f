//! Merges archived sets into the era array, and finds a set for the next era.

ghost use Rattle.std.specs.Prelude.{◌≡◌, ◌+◌, List, ◌∷◌, length, true};
ghost use Rattle.std.specs.List.{AllByRecursion};
ghost use Rattle.era_base.specs.declared.limits.TheConstants.{MOST_SETS};
ghost use Rattle.era_model.specs.Marks.{ArchivedSet, transcribed};
ghost use Rattle.era_meta.specs.LiveParts.{MakesRoom};

use crate::live_set::LiveSet;
use crate::page_source::part;
use era_array::EraArray;
use era_base::{MOST_SETS, ReservedList};
use era_sets::BitSet;

/// As many sets as can be archived.
pub const ROOM: usize = MOST_SETS as usize;

/// The blocks of a page of the era array.
const ARRAY_BLOCKS: u32 = 1_024;

/// The words of a set for the blocks of a page of the era array.
const PAGE_WORDS: usize = 16;

/// Merges a set into the era array, a page at a time: the set's era becomes the entry of each of its blocks.
fn merge(array: &mut EraArray, set: &LiveSet)
    requires { length set.now.blocks ≡ length array.old }
    ensures { array.new ≡ transcribed set.now (λ block. true) 0 array.old }
{
    let pages = set.blocks().len().div_ceil(ARRAY_BLOCKS);
    for page in 0..pages {
        let first = PAGE_WORDS * page as usize;
        let words = part(set.blocks().words(), first, PAGE_WORDS);
        array.transcribe_page(page, words, set.era());
    }
}

/// Takes a set that isn't in use. Where sixteen sets are archived, that is the oldest one, which is merged into the
/// era array before.
pub fn take_set(
    array: &mut EraArray,
    archive: &mut ReservedList<LiveSet, { ROOM }>,
    spare: &mut ReservedList<LiveSet, { ROOM }>,
) -> BitSet
    requires sets { length archive.old + length spare.old ≡ MOST_SETS }
    requires archived { (oldest : ArchivedSet) (sets : List ArchivedSet)
        → archive.old ≡ oldest ∷ sets → length oldest.blocks ≡ length array.old }
    requires spares { AllByRecursion (λ set. length set.blocks ≡ length array.old) spare.old }
    ensures room { MakesRoom array.old array.new archive.old archive.new }
    ensures size { length result ≡ length array.old }
    ensures sets { length archive.new + 1 + length spare.new ≡ MOST_SETS }
    ensures spares { AllByRecursion (λ set. length set.blocks ≡ length array.old) spare.new }
    ensures len { length array.new ≡ length array.old }
{
    if archive.len() < ROOM {
        return spare.take_first().into_blocks();
    }
    let oldest = archive.take_first();
    merge(array, &oldest);
    oldest.into_blocks()
}
