//! How often a disk in memory has failed.

ghost use Rattle.std.specs.Prelude.{◌≡◌, ◌≤◌};
ghost use Rattle.era_base.specs.Faults.{Rose};
ghost use Rattle.era_disks.specs.Calls.{one_more};

use era_base::Failed;

/// How often a disk has failed, and how often of these because memory was refused.
#[derive(Debug, Drop)]
pub struct FailureCounts {
    pub faults: u64,
    pub starved: u64,
}

impl FailureCounts {
    /// It has not failed.
    pub fn new() -> FailureCounts
        ensures { result ≡ record { faults = 0; starved = 0 } }
    {
        FailureCounts {
            faults: 0,
            starved: 0,
        }
    }

    /// It fails.
    pub fn fail(&mut self) -> Failed
        ensures later { self.old.faults ≤ self.new.faults }
        ensures rose { Rose self.old.faults self.new.faults }
        ensures counted { self.new ≡ record self.old { faults = one_more self.old.faults } }
    {
        self.faults = self.faults.saturating_add(1);
        Failed
    }

    /// It fails because memory was refused.
    pub fn starve(&mut self) -> Failed
        ensures later { self.old.faults ≤ self.new.faults }
        ensures rose { Rose self.old.faults self.new.faults }
        ensures counted { self.new ≡ record {
          faults = one_more self.old.faults;
          starved = one_more self.old.starved;
        } }
    {
        self.starved = self.starved.saturating_add(1);
        self.fail()
    }
}
