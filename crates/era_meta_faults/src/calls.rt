//! Calls on the metadata of any disk.

ghost use Rattle.era_meta.specs.MetaCalls.{IsStanding};

use era_base::Disk;
use era_meta::Meta;

/// A call on the metadata.
#[derive(Clone, Copy)]
pub enum Call {
    Nothing,
    Mark(u32),
    Roll,
    Digest,
    TakeSnap,
    DropSnap,
}

/// Makes a call, where it may be made, and tells whether it was made and answered Ok.
fn make_once<D: Disk>(meta: &mut Meta<D>, call: Call) -> bool
    requires { IsStanding D.Disk meta.old }
    ensures { IsStanding D.Disk meta.new }
{
    if meta.unstored() || meta.sequence() > 999 || meta.era() > 999 {
        return false;
    }
    match call {
        Call::Nothing => true,
        Call::Mark(block) if block < meta.marks.blocks() => meta.mark(block).is_ok(),
        Call::Roll => meta.roll().is_ok(),
        Call::Digest => meta.digest_step().is_ok(),
        Call::TakeSnap if !meta.held() => meta.take_snap().is_ok(),
        Call::DropSnap if meta.held() => meta.drop_snap().is_ok(),
        _ => false,
    }
}

/// Stores the marks, where a number is left.
fn store<D: Disk>(meta: &mut Meta<D>) -> bool
    requires { IsStanding D.Disk meta.old }
    ensures { IsStanding D.Disk meta.new }
{
    if meta.sequence() > 999 {
        return false;
    }
    meta.store().is_ok()
}

/// Makes a call. Where it fails and is to be mended, it is made again, and where it stands in memory alone, it is stored.
fn make<D: Disk>(meta: &mut Meta<D>, call: Call, is_mended: bool) -> bool
    requires { IsStanding D.Disk meta.old }
    ensures { IsStanding D.Disk meta.new }
{
    if make_once(meta, call) {
        return true;
    }
    if !is_mended {
        return false;
    }
    if meta.unstored() {
        return store(meta);
    }
    make_once(meta, call)
}

/// Makes calls until one fails, and tells how many were made.
pub fn make_all<D: Disk>(meta: &mut Meta<D>, calls: &[Call], is_mended: bool) -> usize
    requires { IsStanding D.Disk meta.old }
    ensures { IsStanding D.Disk meta.new }
{
    match calls.split_first() {
        Some((call, later)) => {
            if make(meta, *call, is_mended) {
                make_all(meta, later, is_mended).saturating_add(1)
            } else {
                0
            }
        }
        None => 0,
    }
}
