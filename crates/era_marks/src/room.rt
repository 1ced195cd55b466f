//! Room for the write set of a new era: a spare set, or that of the oldest archived one.

ghost use Rattle.std.specs.Prelude.{◌≡◌, ◌+◌, List, ◌∷◌, All, length, true, vec_len, vec_capacity};
ghost use Rattle.era_model.specs.Marks.{transcribed, ArchivedSet};
ghost use Rattle.era_marks.specs.Room.{MakesRoom};

use crate::write_set::WriteSet;
use era_base::MOST_SETS;

/// Merges a set into the era array: the set's era becomes the entry of each of its blocks.
fn merge(array: &mut Vec<u32>, set: &WriteSet)
    requires { length set.now.blocks ≡ vec_len array.old }
    ensures value { array.new.items ≡ transcribed set.now (λ block. true) 0 array.old.items }
    ensures len { vec_len array.new ≡ vec_len array.old }
{
    for block in 0..array.len() {
        if set.has(block) {
            array[block] = set.era();
        }
    }
}

/// Takes a set that isn't in use. Where sixteen sets are archived, that is the oldest one, which is merged into the
/// era array before.
pub fn take_set(
    array: &mut Vec<u32>,
    archive: &mut Vec<WriteSet>,
    spare: &mut Vec<WriteSet>,
) -> WriteSet
    requires sets { vec_len archive.old + vec_len spare.old ≡ MOST_SETS }
    requires archived { (oldest : ArchivedSet) (sets : List ArchivedSet)
        → archive.old.items ≡ oldest ∷ sets
        → length oldest.blocks ≡ vec_len array.old }
    requires spares { All (λ set. length set.blocks ≡ vec_len array.old) spare.old.items }
    ensures room { MakesRoom array.old.items array.new.items archive.old.items archive.new.items }
    ensures size { length result.blocks ≡ vec_len array.old }
    ensures sets { vec_len archive.new + 1 + vec_len spare.new ≡ MOST_SETS }
    ensures spares { All (λ set. length set.blocks ≡ vec_len array.old) spare.new.items }
    ensures len { vec_len array.new ≡ vec_len array.old }
    ensures capacity { vec_capacity archive.new ≡ vec_capacity archive.old }
{
    if archive.len() < MOST_SETS as usize {
        return match spare.pop() {
            Some(set) => set,
            None => unreachable!(),
        };
    }
    let oldest = archive.remove(0);
    merge(array, &oldest);
    oldest
}
