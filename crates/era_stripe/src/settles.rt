//! How a stripe resolves a cut write: a sync, a read of its sectors, and the draw.

ghost use Rattle.std.specs.Prelude.{◌≡◌, ◌*◌, true, OnOk, length, vec_len};
ghost use Rattle.era_base.specs.CrashModel.{LiesOn, SameBut};
ghost use Rattle.era_base.specs.Calls.{EachMoment, Now, IsOnDisk, SameDisk};
ghost use Rattle.era_base.specs.Faults.{HasCount};
ghost use Rattle.era_model.specs.declared.opening.Opening.{Opening};
ghost use Rattle.era_stripe.specs.Results.{SyncsAndReads};

use crate::stripe::Stripe;
use era_base::{Bytes, CmdId, Disk};
use era_gate::{Gate, Pass};
use era_model::Event;

/// Syncs, and reads sectors back. At Ok nothing is pending, and the buffer has what the sectors read as. The error is the
/// disk's count of faults, which rose.
pub(crate) fn read_back<D: Disk>(disk: &mut D, first: u64, into: &mut [u8]) -> Result<(), u64>
    requires { LiesOn (D.sectors disk.old) first (length into.old) }
    ensures told { D.tells ≡ true → SyncsAndReads first into.new result
        (D.history disk.old) (D.history disk.new) }
    ensures moments { EachMoment D.Disk (SameBut 0 0) disk.old disk.new }
    ensures read { OnOk result (Now D.Disk (IsOnDisk (first * 512) into.new) disk.new) }
    ensures disk { SameDisk D.Disk disk.old disk.new }
    ensures cause { HasCount (D.faults disk.old) (D.faults disk.new) result }
{
    let Ok(()) = disk.sync() else {
        return Err(disk.faults());
    };
    let Ok(()) = disk.read(first, into) else {
        return Err(disk.faults());
    };
    Ok(())
}

/// Syncs, and reads as many bytes of sectors back as the buffer has.
pub(crate) fn read_back_into<D: Disk>(
    disk: &mut D,
    first: u64,
    into: &mut Vec<u8>,
) -> Result<(), u64>
    requires { LiesOn (D.sectors disk.old) first (vec_len into.old) }
    ensures told { D.tells ≡ true → SyncsAndReads first into.new.items result
        (D.history disk.old) (D.history disk.new) }
    ensures moments { EachMoment D.Disk (SameBut 0 0) disk.old disk.new }
    ensures read { OnOk result (Now D.Disk (IsOnDisk (first * 512) into.new.items) disk.new) }
    ensures size { (vec_len into.new ≡ vec_len into.old)
        × (length into.new.items ≡ vec_len into.old) }
    ensures disk { SameDisk D.Disk disk.old disk.new }
    ensures cause { HasCount (D.faults disk.old) (D.faults disk.new) result }
{
    read_back(disk, first, into.as_mut_slice())
}

impl<D: Disk> Stripe<D> {
    ghost use Rattle.era_stripe.specs.Calls.{SameStripe};
    ghost use Rattle.era_stripe.specs.Results.{MaySettleBy, SettleDid, Knows};
    ghost use Rattle.era_stripe.specs.Stripes.{StripeFits, StripeStands, IsAtRest};

    /// Resolves the cut write, if there is one: syncs, reads its sectors back, draws what was read, and leaves the gate. The
    /// error is the disk's count of faults, which rose: then nothing is drawn, and the write is still cut. It takes no memory.
    pub fn settle(&mut self, gate: &Gate, pass: &mut Pass, by: CmdId) -> Result<(), u64>
        requires may { MaySettleBy D.Disk gate.now self.old pass.old by }
        ensures fits { StripeFits D.Disk self.new }
        ensures stands { (opening : Opening) → StripeStands D.Disk opening self.old
            → StripeStands D.Disk opening self.new }
        ensures did { SettleDid D.Disk self.old.cut by result self.old self.new pass.old pass.new }
        ensures rest { IsAtRest self.new }
        ensures knows { Knows self.new pass.new }
        ensures same { SameStripe D.Disk self.old self.new }
        ensures cause { HasCount (D.faults self.old.disk) (D.faults self.new.disk) result }
    {
        let Some(mut cut) = self.cut.take() else {
            gate.learn(&mut self.seat, pass);
            return Ok(());
        };
        let sector = self.sector_of(cut.block, cut.first);
        match read_back_into(&mut self.disk, sector, &mut cut.buffer) {
            Ok(()) => {
                let bytes = Bytes::from_vec(cut.buffer);
                let event = Event::Settle {
                    by,
                    cut: cut.id,
                    bytes,
                };
                self.finish(gate, pass, event);
                Ok(())
            }
            Err(count) => {
                self.cut = Some(cut);
                gate.learn(&mut self.seat, pass);
                Err(count)
            }
        }
    }
}
