//! How a stripe writes: the draw, the write, the sync, and the draw of how it ended.

ghost use Rattle.std.specs.Prelude.{◌≡◌, true, OnOk, OnErr, length, vec_len, None};
ghost use Rattle.era_base.specs.Calls.{WritesThenSyncs};
ghost use Rattle.era_base.specs.Faults.{HasCount};
ghost use Rattle.era_model.specs.declared.event.Event.TheVariants.{Go, Done};
ghost use Rattle.era_model.specs.declared.opening.Opening.{Opening};
ghost use Rattle.era_notes.specs.Parts.{sector_in};

use crate::cut_write::CutWrite;
use crate::stripe::Stripe;
use era_base::{CmdId, Disk, write_synced};
use era_gate::{Gate, Pass};
use era_model::Event;

impl<D: Disk> Stripe<D> {
    ghost use Rattle.era_stripe.specs.Calls.{Drew, SameStripe};
    ghost use Rattle.era_stripe.specs.Results.{MayWriteSeen, AfterWrite, write_events, only};
    ghost use Rattle.era_stripe.specs.Stripes.{StripeFits, StripeStands, part_of};

    /// Writes whole sectors of a block from its sector `first` on, syncs them, and leaves the gate. The stripe is inside and
    /// has seen the block's bit. The error is the disk's count of faults, which rose: then the write is cut, nothing is known
    /// of its sectors, and the stripe stays inside. One write, and one sync exactly where it answered Ok, are the only calls
    /// of the disk. It takes no memory.
    pub fn write_seen(
        &mut self,
        gate: &Gate,
        pass: &mut Pass,
        id: CmdId,
        block: u32,
        first: u32,
        bytes: &[u8],
    ) -> Result<(), u64>
        requires may { MayWriteSeen D.Disk gate.now self.old pass.old id block first
            (length bytes.now) }
        ensures fits { StripeFits D.Disk self.new }
        ensures stands { (opening : Opening) → StripeStands D.Disk opening self.old
            → StripeStands D.Disk opening self.new }
        ensures drew { Drew (write_events id block self.old.era first bytes.now result) (only id)
            self.old self.new pass.old pass.new }
        ensures told { D.tells ≡ true
            → WritesThenSyncs (sector_in (part_of self.old) block first) bytes.now result
            (D.history self.old.disk) (D.history self.new.disk) }
        ensures after { AfterWrite id block first (length bytes.now) result self.new }
        ensures same { SameStripe D.Disk self.old self.new }
        ensures cause { HasCount (D.faults self.old.disk) (D.faults self.new.disk) result }
    {
        let sector = self.sector_of(block, first);
        let (_, spare) = self.issue(gate, pass, id, block, first, bytes);
        match write_synced(&mut self.disk, sector, bytes) {
            Ok(()) => {
                self.finish(gate, pass, Event::Done { id });
                Ok(())
            }
            Err(count) => {
                self.note(gate, pass, Event::Cut { id, faults: count });
                self.cut = Some(CutWrite {
                    id,
                    block,
                    first,
                    buffer: spare,
                });
                Err(count)
            }
        }
    }
}
