//! How a session is prepared over its devices.

ghost use Rattle.std.specs.Prelude.{◌≡◌, ◌*◌, ◌<◌, ◌≤◌, [], length, vec_capacity, IfOk, IfErr};
ghost use Rattle.era_base.specs.Calls.{Now};
ghost use Rattle.era_base.specs.CrashModel.{IsClean};
ghost use Rattle.era_meta.specs.Starting.{IsBegun};
ghost use Rattle.era_notes.specs.Parts.{part_sectors};
ghost use Rattle.era_session.specs.Openings.{AreClean, AreNewSeats, AreParts, AreStripesOver, HasRoomFor, IsStripeOver, SyncDid, SyncsDid, blocks_at_part, origin_blocks, part_blocks};
ghost use Rattle.era_stripe.specs.Stripes.{IsNewSeat};

use crate::session::Session;
use era_base::{Disk, Geometry};
use era_gate::{Gate, StripeSeat};
use era_keeper::Keeper;
use era_meta::{Meta, MetaError};
use era_stripe::Stripe;
use std::alloc::Global;

/// Why a session isn't prepared.
#[derive(Clone, Copy, Debug, PartialEq, Eq)]
pub enum PrepareError {
    /// A sync of a stripe's part failed. It has the stripe's number and the part's count of faults,
    /// which rose.
    Data(u32, u64),
    /// The metadata disk isn't opened.
    Meta(MetaError),
    /// Memory was refused.
    Memory,
}

/// A refusal, with all devices.
#[derive(Drop)]
pub struct PrepareRefusal<D> {
    pub error: PrepareError,
    pub metadata: D,
    pub parts: Vec<D>,
}

/// Syncs a part. The error is its count of faults, which rose.
fn sync_part<D: Disk>(part: &mut D) -> Result<(), u64>
    ensures { SyncDid D.Disk result part.old part.new }
{
    let Ok(()) = part.sync() else {
        return Err(part.faults());
    };
    Ok(())
}

/// Syncs the parts in order, up to the first whose sync fails.
fn sync_parts<D: Disk>(parts: &mut Vec<D>) -> Result<(), PrepareError>
    requires few { length parts.old.items ≤ 16 }
    ensures did { SyncsDid D.Disk result parts.old.items parts.new.items }
{
    for index in 0..parts.len() {
        if let Err(count) = sync_part(&mut parts[index]) {
            return Err(PrepareError::Data(index as u32, count));
        }
    }
    Ok(())
}

/// The stripe of a number over its part, where each but the last has `each` blocks.
fn stripe_over<D: Disk>(
    part: D,
    seat: StripeSeat,
    index: u32,
    geometry: Geometry,
    each: u32,
) -> Stripe<D>
    requires some { index * each < origin_blocks geometry }
    requires size { D.sectors part
        ≡ part_sectors geometry (index * each) (blocks_at_part geometry each index) }
    requires seat { IsNewSeat seat.part index }
    ensures { IsStripeOver D.Disk geometry each index part seat result }
{
    let first_block = index * each;
    let blocks = each.min(geometry.blocks() - first_block);
    Stripe::start(part, index, first_block, blocks, geometry, seat)
}

/// Moves the parts and the seats into stripes, in order. There is room for the stripes, so it takes
/// no memory.
fn start_stripes<D: Disk + Drop>(
    parts: &mut Vec<D>,
    seats: &mut Vec<StripeSeat>,
    stripes: &mut Vec<Stripe<D>>,
    geometry: Geometry,
    each: u32,
)
    requires parts { AreParts D.Disk geometry parts.old.items
        × (each ≡ part_blocks geometry (length parts.old.items)) }
    requires seats { (length seats.old.items ≡ length parts.old.items)
        × AreNewSeats seats.old.items }
    requires room { HasRoomFor parts.old.items stripes.old.items (vec_capacity stripes.old) }
    ensures stripes { AreStripesOver D.Disk geometry each (length parts.old.items)
        parts.old.items seats.old.items stripes.new.items }
    ensures parts { (parts.new.items ≡ []) × (vec_capacity parts.new ≡ vec_capacity parts.old) }
    ensures seats { (seats.new.items ≡ []) × (vec_capacity seats.new ≡ vec_capacity seats.old) }
{
    for index in 0..parts.len() {
        let part = parts.remove(0);
        let seat = seats.remove(0);
        let stripe = stripe_over(part, seat, index as u32, geometry, each);
        let Ok(()) = stripes.push(stripe) else {
            unreachable!()
        };
    }
}

impl<D: Disk + Drop> Session<D> {
    ghost use Rattle.era_meta.specs.Starting.{StartsSafely};
    ghost use Rattle.era_session.specs.Openings.{IsBegunOver, IsOpened, IsPrepared, IsRefusal, IsUnbegun, IsUnopened, metadata_disk, opening_of};
    ghost use Rattle.era_session.specs.Sessions.{SessionFits, SessionStands};

    /// Prepares a session over the parts of the origin, which are its stripes in order, and its
    /// metadata disk. First it takes the memory of the stripes. Then it syncs each part, opens the
    /// metadata disk for serving, which begins an era by one commit, and makes the gate, which
    /// takes memory again. It makes no other device call, and writes no part. The errors come in
    /// that order; each hands all devices back.
    pub fn prepare(
        alloc: Global,
        geometry: Geometry,
        metadata: D,
        mut parts: Vec<D>,
    ) -> Result<Session<D>, PrepareRefusal<D>>
        requires parts { AreParts D.Disk geometry parts.items }
        ensures fits { IfOk result (SessionFits D.Disk) }
        ensures stands { IfOk result (λ session.
            SessionStands D.Disk (opening_of D.Disk parts.items session) session) }
        ensures prepared { IfOk result (IsPrepared D.Disk geometry metadata parts.items) }
        ensures refused { IfErr result (IsRefusal D.Disk geometry metadata parts.items) }
        ensures safely { StartsSafely D.Disk geometry metadata (metadata_disk result) }
    {
        let Ok(stripes) = Vec::with_capacity(alloc, parts.len()) else {
            return Err(PrepareRefusal {
                error: PrepareError::Memory,
                metadata,
                parts,
            });
        };
        if let Err(error) = sync_parts(&mut parts) {
            return Err(PrepareRefusal {
                error,
                metadata,
                parts,
            });
        }
        Session::open(alloc, geometry, metadata, parts, stripes)
    }

    /// Opens the metadata disk for serving, and begins a session over parts of which nothing is
    /// pending. There is room for the stripes.
    fn open(
        alloc: Global,
        geometry: Geometry,
        metadata: D,
        parts: Vec<D>,
        stripes: Vec<Stripe<D>>,
    ) -> Result<Session<D>, PrepareRefusal<D>>
        requires parts { AreParts D.Disk geometry parts.items }
        requires clean { AreClean D.Disk parts.items }
        requires room { HasRoomFor parts.items stripes.items (vec_capacity stripes) }
        ensures fits { IfOk result (SessionFits D.Disk) }
        ensures stands { IfOk result (λ session.
            SessionStands D.Disk (opening_of D.Disk parts.items session) session) }
        ensures opened { IfOk result (IsOpened D.Disk geometry metadata parts.items) }
        ensures refused { IfErr result (IsUnopened D.Disk geometry metadata parts.items) }
        ensures safely { StartsSafely D.Disk geometry metadata (metadata_disk result) }
    {
        match Meta::start(alloc, metadata, geometry) {
            Ok(meta) => Session::begin(alloc, geometry, meta, parts, stripes),
            Err(refusal) => Err(PrepareRefusal {
                error: PrepareError::Meta(refusal.error),
                metadata: refusal.disk,
                parts,
            }),
        }
    }

    /// Makes the gate, and begins a session over metadata that has begun an era and parts of which
    /// nothing is pending. The only error is `Memory`, for the gate. It makes no device call.
    fn begin(
        alloc: Global,
        geometry: Geometry,
        meta: Meta<D>,
        mut parts: Vec<D>,
        mut stripes: Vec<Stripe<D>>,
    ) -> Result<Session<D>, PrepareRefusal<D>>
        requires parts { AreParts D.Disk geometry parts.items }
        requires clean { AreClean D.Disk parts.items }
        requires room { HasRoomFor parts.items stripes.items (vec_capacity stripes) }
        requires begun { (old : D) × IsBegun D.Disk geometry old meta }
        ensures fits { IfOk result (SessionFits D.Disk) }
        ensures stands { IfOk result (λ session.
            SessionStands D.Disk (opening_of D.Disk parts.items session) session) }
        ensures over { IfOk result (IsBegunOver geometry meta parts.items) }
        ensures refused { IfErr result (IsUnbegun meta parts.items) }
    {
        meta.marks.are_valid();
        meta.snapshot.marks.are_valid();
        let count = parts.len() as u32;
        let Ok((gate, seat, mut seats, pass)) = Gate::make(alloc, geometry, meta.era(), count)
        else {
            return Err(PrepareRefusal {
                error: PrepareError::Memory,
                metadata: meta.into_disk(),
                parts,
            });
        };
        let each = geometry.blocks().div_ceil(count);
        start_stripes(&mut parts, &mut seats, &mut stripes, geometry, each);
        Ok(Session {
            gate,
            keeper: Keeper::start(meta, seat),
            stripes,
            pass,
            geometry,
            each,
            seats,
            parts,
        })
    }
}
