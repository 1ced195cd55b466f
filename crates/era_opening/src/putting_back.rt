//! Puts devices of a session back.

ghost use Rattle.std.specs.Prelude.{◌≡◌, ◌∷◌, true};
ghost use Rattle.era_base.specs.Bay.{KeepsSizes};
ghost use Rattle.era_opening.specs.Loans.{AreOut, ArePutBack, EndInOrder, LieInOrder, MayGoBack, ReadAsDisks, SameReadsBeside};
ghost use Rattle.era_tools.specs.Around.{bay_around};

use era_base::Bay;
use era_session::Ended;

/// Puts disks back, in the order in which they were lent.
fn put_back_all<B: Bay>(bay: &mut B, mut disks: Vec<B::D>)
    requires apart { LieInOrder B.D.Disk disks.items }
    requires out { AreOut B.D.Disk disks.items (B.loans bay.old) }
    ensures loans { EndInOrder B.D.Disk disks.items (B.loans bay.old) (B.loans bay.new) }
    ensures content { B.D.tells ≡ true → ReadAsDisks B.D.Disk disks.items (B.reads bay.new) }
    ensures others { SameReadsBeside B.D.Disk disks.items (B.reads bay.old) (B.reads bay.new) }
    ensures sizes { KeepsSizes (B.sizes bay.old) (B.sizes bay.new) }
    ensures same { B.faults bay.new ≡ B.faults bay.old }
{
    for index in 0..disks.len() {
        let _done = index;
        let disk = disks.remove(0);
        bay.put_back(disk);
    }
}

/// Puts the devices of a session back: the metadata device, and then each part of its origin. They were lent last, in this
/// order. The bay then reads as they do.
pub fn put_back_devices<B: Bay>(bay: &mut B, metadata: B::D, parts: Vec<B::D>)
    requires apart { LieInOrder B.D.Disk (metadata ∷ parts.items) }
    requires out { AreOut B.D.Disk (metadata ∷ parts.items) (B.loans bay.old) }
    ensures loans { EndInOrder B.D.Disk (metadata ∷ parts.items)
        (B.loans bay.old) (B.loans bay.new) }
    ensures content { B.D.tells ≡ true
        → ReadAsDisks B.D.Disk (metadata ∷ parts.items) (B.reads bay.new) }
    ensures others { SameReadsBeside B.D.Disk (metadata ∷ parts.items)
        (B.reads bay.old) (B.reads bay.new) }
    ensures sizes { KeepsSizes (B.sizes bay.old) (B.sizes bay.new) }
    ensures same { B.faults bay.new ≡ B.faults bay.old }
{
    bay.put_back(metadata);
    put_back_all(bay, parts);
}

/// Puts the devices of a session back for those that were lent last: the metadata device, and then each part of its
/// origin. The bay then reads as they do.
pub fn put_back_lent<B: Bay>(bay: &mut B, metadata: B::D, parts: Vec<B::D>)
    requires may { MayGoBack B.D.Disk (metadata ∷ parts.items) (B.loans bay.old) }
    ensures back { ArePutBack B.D.Disk (bay_around B.Bay bay.old bay.new)
        (metadata ∷ parts.items) }
    ensures sizes { KeepsSizes (B.sizes bay.old) (B.sizes bay.new) }
{
    put_back_devices(bay, metadata, parts);
}

/// Puts the devices of a session that has ended back, in the order in which they were lent. The bay then reads as they do.
pub fn put_back_session<B: Bay>(bay: &mut B, ended: Ended<B::D>)
    requires may { MayGoBack B.D.Disk (ended.meta ∷ ended.parts.items) (B.loans bay.old) }
    ensures back { ArePutBack B.D.Disk (bay_around B.Bay bay.old bay.new)
        (ended.meta ∷ ended.parts.items) }
    ensures sizes { KeepsSizes (B.sizes bay.old) (B.sizes bay.new) }
{
    let Ended {
        places: _,
        parts,
        meta,
    } = ended;
    put_back_lent(bay, meta, parts);
}
