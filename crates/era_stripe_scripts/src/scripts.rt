//! Two writes and a checkpoint, with a fuse at each write and failing syncs, and what each crash leaves of them.

ghost use Rattle.std.specs.Prelude.{◌≡◌, ◌+◌, ◌*◌, ◌<◌, ◌≤◌, true, IfOk, OnOk, length};
ghost use Rattle.era_disks.specs.MemDisk.{history_of, sectors_of as disk_sectors};
ghost use Rattle.era_stripe.specs.Stripes.{IsAtRest};
ghost use Rattle.era_stripe_scripts.specs.Benches.{IsBench, IsBlank, IsSpan};

use crate::benches::start;
use crate::commands::{Answer, checkpoint, read, write};
use era_base::{Disk, Memory, Name};
use era_disks::{DiskCall, Fuse, MadeCall, MemDisk, Tear};
use era_gate::{Gate, Pass};
use era_stripe::Stripe;
use std::alloc::Global;
use std::test::Fail;

/// Whole sectors of a block, from one of its sectors on.
#[derive(Clone, Copy, Debug, PartialEq, Eq)]
struct Span {
    block: u32,
    first: u32,
    sectors: usize,
}

/// Which two writes: of two blocks, of one block, or of the short last one.
#[derive(Clone, Copy, Debug, PartialEq, Eq)]
enum Script {
    Apart,
    Over,
    Short,
}

/// What fails: the first or the second write, with all behind it, by a fuse; or the syncs from one number up to another.
#[derive(Clone, Copy, Debug, PartialEq, Eq)]
enum Stop {
    First,
    Second,
    Syncs(u64, u64),
}

/// What became of a write: it wasn't made, it failed, its sync failed, or it was synced.
#[derive(Clone, Copy, Debug, PartialEq, Eq)]
enum Fate {
    Absent,
    Failed,
    Pending,
    Synced,
}

/// What fails, how the two writes and the checkpoint are answered, and what became of the writes.
#[derive(Clone, Copy)]
struct Row {
    stop: Stop,
    answers: [Answer; 3],
    fates: [Fate; 2],
}

/// The two writes of a script, of the bytes 1 and 2.
fn spans_of(script: Script) -> (Span, Span)
    ensures first { IsSpan result.0.block result.0.first (result.0.sectors * 512) }
    ensures second { IsSpan result.1.block result.1.first (result.1.sectors * 512) }
{
    let whole = Span {
        block: 0,
        first: 0,
        sectors: 8,
    };
    let short = Span {
        block: 2,
        first: 0,
        sectors: 4,
    };
    match script {
        Script::Apart => (whole, short),
        Script::Over => (
            whole,
            Span {
                block: 0,
                first: 2,
                sectors: 3,
            },
        ),
        Script::Short => (
            short,
            Span {
                block: 2,
                first: 1,
                sectors: 3,
            },
        ),
    }
}

/// The first sector of a span in the origin, and the one behind its last.
fn sectors_of(span: Span) -> (usize, usize)
    requires { IsSpan span.block span.first (span.sectors * 512) }
    ensures { (result.0 ≤ result.1) × (result.1 ≤ 20) }
{
    let first = span.block as usize * 8 + span.first as usize;
    (first, first + span.sectors)
}

/// A blank disk of 20 sectors with a fuse at the first write from a sector.
fn burning(alloc: Global, sector: u64) -> Result<MemDisk, Memory>
    ensures blank { IfOk result (λ disk. IsBlank (history_of disk).now) }
    ensures size { IfOk result (λ disk. disk_sectors disk ≡ 20) }
{
    let mut disk = MemDisk::new(alloc, "origin", 20)?;
    let device = Name::from_text(alloc, "origin")?;
    disk.set_fuse(Fuse {
        device,
        sector,
        number: 0,
    })?;
    Ok(disk)
}

/// A blank disk of 20 sectors whose syncs of these numbers fail.
fn unsynced(alloc: Global, from: u64, to: u64) -> Result<MemDisk, Memory>
    ensures blank { IfOk result (λ disk. IsBlank (history_of disk).now) }
    ensures size { IfOk result (λ disk. disk_sectors disk ≡ 20) }
{
    let mut disk = MemDisk::new(alloc, "origin", 20)?;
    for number in from..to {
        disk.fail(DiskCall::Sync, number)?;
    }
    Ok(disk)
}

/// A blank disk of 20 sectors that is to stop so.
fn stopping(alloc: Global, spans: (Span, Span), stop: Stop) -> Result<MemDisk, Memory>
    requires first { IsSpan spans.0.block spans.0.first (spans.0.sectors * 512) }
    requires second { IsSpan spans.1.block spans.1.first (spans.1.sectors * 512) }
    ensures blank { IfOk result (λ disk. IsBlank (history_of disk).now) }
    ensures size { IfOk result (λ disk. disk_sectors disk ≡ 20) }
{
    match stop {
        Stop::First => burning(alloc, sectors_of(spans.0).0 as u64),
        Stop::Second => burning(alloc, sectors_of(spans.1).0 as u64),
        Stop::Syncs(from, to) => unsynced(alloc, from, to),
    }
}

/// Writes a byte all over a span.
fn fill<D: Disk>(
    alloc: Global,
    gate: &Gate,
    stripe: &mut Stripe<D>,
    pass: &mut Pass,
    number: u32,
    span: Span,
    byte: u8,
) -> Result<Answer, Memory>
    requires bench { IsBench D.Disk number (3 * number) gate.now stripe.old pass.old }
    requires rest { IsAtRest stripe.old }
    requires few { number < 100 }
    requires span { IsSpan span.block span.first (span.sectors * 512) }
    ensures bench { OnOk result (IsBench D.Disk (number + 1) (3 * number + 3) gate.now
        stripe.new pass.new) }
    ensures rest { OnOk result (IsAtRest stripe.new) }
{
    let bytes = [byte; 4_096];
    let place = (span.block, span.first);
    write(
        alloc,
        gate,
        stripe,
        pass,
        number,
        place,
        &bytes[..span.sectors * 512],
    )
}

/// The two writes and the checkpoint: how each was answered.
fn commands<D: Disk>(
    alloc: Global,
    gate: &Gate,
    stripe: &mut Stripe<D>,
    pass: &mut Pass,
    spans: (Span, Span),
) -> Result<[Answer; 3], Memory>
    requires bench { IsBench D.Disk 2 6 gate.now stripe.old pass.old }
    requires rest { IsAtRest stripe.old }
    requires first { IsSpan spans.0.block spans.0.first (spans.0.sectors * 512) }
    requires second { IsSpan spans.1.block spans.1.first (spans.1.sectors * 512) }
    ensures bench { OnOk result (IsBench D.Disk 5 15 gate.now stripe.new pass.new) }
    ensures rest { OnOk result (IsAtRest stripe.new) }
{
    let first = fill(alloc, gate, stripe, pass, 2, spans.0, 1)?;
    let second = fill(alloc, gate, stripe, pass, 3, spans.1, 2)?;
    let third = checkpoint(alloc, gate, stripe, pass, 4)?;
    Ok([first, second, third])
}

/// How the commands were answered on a disk, and the disk after them.
fn go<D: Disk + Drop>(
    alloc: Global,
    disk: D,
    spans: (Span, Span),
) -> Result<([Answer; 3], D), Memory>
    requires size { D.sectors disk ≡ 20 }
    requires blank { D.tells ≡ true → IsBlank (D.history disk).now }
    requires first { IsSpan spans.0.block spans.0.first (spans.0.sectors * 512) }
    requires second { IsSpan spans.1.block spans.1.first (spans.1.sectors * 512) }
    ensures size { IfOk result (λ r. D.sectors r.1 ≡ 20) }
{
    let (gate, mut stripe, mut pass) = start(alloc, disk)?;
    let answers = commands(alloc, &gate, &mut stripe, &mut pass, spans)?;
    let (disk, _, _) = stripe.close();
    Ok((answers, disk))
}

/// The byte of which a sector is full, or 255.
fn byte_of(sector: &[u8]) -> u8 {
    match sector.first() {
        Some(byte) if sector.iter().all(|other| other == byte) => *byte,
        _ => 255,
    }
}

/// The bytes of which the sectors of a disk are full.
fn image_of(disk: &mut MemDisk) -> Result<[u8; 20], Fail>
    requires { disk_sectors disk.old ≡ 20 }
{
    let mut bytes = [0; 10_240];
    disk.read(0, &mut bytes)?;
    let mut image = [0; 20];
    for sector in 0..20_usize {
        image[sector] = byte_of(&bytes[sector * 512..(sector + 1) * 512]);
    }
    Ok(image)
}

/// What a crash with this tear leaves of a write of this byte, or `None` where it leaves what was there before.
fn left_of(fate: Fate, byte: u8, tear: Tear) -> Option<u8> {
    let torn = match tear {
        Tear::Fill(torn) => Some(torn),
        _ => None,
    };
    match fate {
        Fate::Absent => None,
        Fate::Failed => torn,
        Fate::Pending if tear == Tear::Keep => Some(byte),
        Fate::Pending => torn,
        Fate::Synced => Some(byte),
    }
}

/// Lays over an image what a crash with this tear leaves of a write of this byte.
fn lay(image: &mut [u8; 20], span: Span, fate: Fate, byte: u8, tear: Tear)
    requires { IsSpan span.block span.first (span.sectors * 512) }
{
    let Some(left) = left_of(fate, byte, tear) else {
        return;
    };
    let (from, to) = sectors_of(span);
    for cell in &mut image[from..to] {
        *cell = left;
    }
}

/// Whether a script that stops so, and a crash with this tear behind it, end as the row says.
fn holds_of(alloc: Global, row: Row, script: Script, tear: Tear) -> Result<bool, Fail> {
    let spans = spans_of(script);
    let disk = stopping(alloc, spans, row.stop)?;
    let (answers, mut disk) = go(alloc, disk, spans)?;
    disk.crash(tear)?;
    let mut wanted = [0; 20];
    lay(&mut wanted, spans.0, row.fates[0], 1, tear);
    lay(&mut wanted, spans.1, row.fates[1], 2, tear);
    Ok(answers == row.answers && image_of(&mut disk)? == wanted)
}

/// A fuse at each write, and each sync failing once, twice and three times.
const ROWS: [Row; 7] = [
    Row {
        stop: Stop::First,
        answers: [Answer::Cut(1), Answer::Refused(2), Answer::PassedOver(3)],
        fates: [Fate::Failed, Fate::Absent],
    },
    Row {
        stop: Stop::Second,
        answers: [Answer::Fine, Answer::Cut(1), Answer::PassedOver(2)],
        fates: [Fate::Synced, Fate::Failed],
    },
    Row {
        stop: Stop::Syncs(0, 1),
        answers: [Answer::Cut(1), Answer::Fine, Answer::Fine],
        fates: [Fate::Synced, Fate::Synced],
    },
    Row {
        stop: Stop::Syncs(0, 2),
        answers: [Answer::Cut(1), Answer::Refused(2), Answer::Fine],
        fates: [Fate::Synced, Fate::Absent],
    },
    Row {
        stop: Stop::Syncs(0, 3),
        answers: [Answer::Cut(1), Answer::Refused(2), Answer::PassedOver(3)],
        fates: [Fate::Pending, Fate::Absent],
    },
    Row {
        stop: Stop::Syncs(1, 2),
        answers: [Answer::Fine, Answer::Cut(1), Answer::Fine],
        fates: [Fate::Synced, Fate::Synced],
    },
    Row {
        stop: Stop::Syncs(1, 3),
        answers: [Answer::Fine, Answer::Cut(1), Answer::PassedOver(2)],
        fates: [Fate::Synced, Fate::Pending],
    },
];

/// The first script that ends otherwise than the row says, with its tear, or `None`.
fn first_unmet(alloc: Global, row: Row) -> Result<Option<(Script, Tear)>, Fail> {
    for script in [Script::Apart, Script::Over, Script::Short] {
        for tear in [Tear::Keep, Tear::Old, Tear::Fill(9)] {
            if !holds_of(alloc, row, script, tear)? {
                return Ok(Some((script, tear)));
            }
        }
    }
    Ok(None)
}

#[test]
fn each_crash_leaves_what_the_row_says(rt: HostRuntime) -> Result<(), Fail> {
    for row in ROWS {
        let unmet = first_unmet(rt.alloc(), row)?;
        assert_eq!(rt; unmet.map(|unmet| (row.stop, unmet)), None);
    }
    Ok(())
}

/// Whether a write that is cut by the first sync, one that settles it, and a checkpoint make just these calls.
fn makes_its_calls(alloc: Global) -> Result<bool, Fail> {
    let wanted = [
        MadeCall::Write {
            first: 0,
            sectors: 8,
            answered: true,
        },
        MadeCall::Sync { answered: false },
        MadeCall::Sync { answered: true },
        MadeCall::Read {
            first: 0,
            sectors: 8,
            answered: true,
        },
        MadeCall::Write {
            first: 16,
            sectors: 4,
            answered: true,
        },
        MadeCall::Sync { answered: true },
    ];
    let spans = spans_of(Script::Apart);
    let disk = unsynced(alloc, 0, 1)?;
    let (_, disk) = go(alloc, disk, spans)?;
    Ok(disk.made() == wanted.as_slice())
}

/// How a write to a block without a mark is answered, and how many calls it makes.
fn write_unmarked(alloc: Global) -> Result<(Answer, usize), Fail> {
    let disk = unsynced(alloc, 0, 0)?;
    let (gate, mut stripe, mut pass) = start(alloc, disk)?;
    let span = Span {
        block: 1,
        first: 0,
        sectors: 1,
    };
    let answer = fill(alloc, &gate, &mut stripe, &mut pass, 2, span, 1)?;
    Ok((answer, stripe.disk.made().len()))
}

/// The bytes of which two sectors are full, or 255.
fn halves_of(bytes: &[u8; 1_024]) -> (u8, u8) {
    (byte_of(&bytes[..512]), byte_of(&bytes[512..]))
}

/// The bytes of which two sectors of the short block are full after the writes, if the part answers.
fn read_short(alloc: Global) -> Result<Option<(u8, u8)>, Fail> {
    let spans = spans_of(Script::Short);
    let disk = unsynced(alloc, 0, 0)?;
    let (gate, mut stripe, mut pass) = start(alloc, disk)?;
    commands(alloc, &gate, &mut stripe, &mut pass, spans)?;
    let mut bytes = [0; 1_024];
    if read(alloc, &gate, &mut stripe, &mut pass, 5, 16, &mut bytes)? {
        Ok(Some(halves_of(&bytes)))
    } else {
        Ok(None)
    }
}

#[test]
fn calls_are_those_of_the_commands(rt: HostRuntime) -> Result<(), Fail> {
    let alloc = rt.alloc();
    assert!(rt; makes_its_calls(alloc)?);
    assert!(rt; write_unmarked(alloc)? == (Answer::Unseen, 0));
    assert!(rt; read_short(alloc)? == Some((1, 2)));
    Ok(())
}
