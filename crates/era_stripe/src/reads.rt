//! How a stripe reads.

ghost use Rattle.std.specs.Prelude.{◌≡◌, ◌/◌, ◌%◌, ◌-◌, ◌*◌, true, length};
ghost use Rattle.era_base.specs.Disk.{Reads};
ghost use Rattle.era_base.specs.Faults.{HasCount};
ghost use Rattle.era_gate.specs.Passes.{no_write};
ghost use Rattle.era_model.specs.declared.opening.Opening.{Opening};
ghost use Rattle.era_notes.specs.Parts.{sector_in};

use crate::stripe::Stripe;
use era_base::{CmdId, Disk};
use era_gate::{Gate, Pass};
use era_model::{Event, Kind, Why};

impl<D: Disk> Stripe<D> {
    ghost use Rattle.era_stripe.specs.Calls.{Drew, SameStripe};
    ghost use Rattle.era_stripe.specs.Results.{MayReadAt, SameStay, read_events};
    ghost use Rattle.era_stripe.specs.Stripes.{StripeFits, StripeStands, part_of};

    /// Reads whole sectors of one block, from `sector` of the origin on. The error is the disk's count of faults, which rose;
    /// then the refusal is drawn. One read is the only call of the disk. It takes no memory.
    pub fn read(
        &mut self,
        gate: &Gate,
        pass: &mut Pass,
        id: CmdId,
        sector: u64,
        into: &mut [u8],
    ) -> Result<(), u64>
        requires may { MayReadAt D.Disk gate.now self.old pass.old id sector (length into.old) }
        ensures fits { StripeFits D.Disk self.new }
        ensures stands { (opening : Opening) → StripeStands D.Disk opening self.old
            → StripeStands D.Disk opening self.new }
        ensures drew { Drew (read_events id sector self.old.index into.new result) no_write
            self.old self.new pass.old pass.new }
        ensures told { D.tells ≡ true → Reads (sector - self.old.first_block
            * self.old.geometry.block_sectors) into.new result
            (D.history self.old.disk) (D.history self.new.disk) }
        ensures stay { SameStay self.old self.new }
        ensures same { SameStripe D.Disk self.old self.new }
        ensures cause { HasCount (D.faults self.old.disk) (D.faults self.new.disk) result }
    {
        let size = u64::from(self.geometry.block_sectors());
        let first = sector - u64::from(self.first_block) * size;
        let Ok(()) = self.disk.read(first, into) else {
            let count = self.disk.faults();
            self.refuse_as(gate, pass, id, Kind::Read, count);
            return Err(count);
        };
        let Some(buffers) = self.room.take() else {
            unreachable!()
        };
        let (bytes, _) = buffers.fill(into);
        self.note(gate, pass, Event::Read { id, sector, bytes });
        Ok(())
    }
}
