//! How often something outside failed, and why it did so first.

ghost use Rattle.std.specs.Prelude.{◌≡◌, ◌≤◌, None, Some, OnSome};
ghost use Rattle.era_base.specs.Faults.{Rose};

use std::io;

/// How often something outside failed, and the system's reason of the first failure.
#[derive(Clone, Copy, Debug)]
pub struct FaultCount {
    pub count: u64,
    pub first: Option<io::Error>,
}

impl FaultCount {
    /// Nothing has failed.
    pub fn new() -> FaultCount
        ensures count { result.count ≡ 0 }
        ensures first { result.first ≡ None }
    {
        FaultCount {
            count: 0,
            first: None,
        }
    }

    /// One more failure. The first reason stays.
    pub fn rise(&mut self, reason: io::Error)
        ensures later { self.old.count ≤ self.new.count }
        ensures rose { Rose self.old.count self.new.count }
        ensures first { self.old.first ≡ None → self.new.first ≡ Some reason }
        ensures kept { OnSome self.old.first (self.new.first ≡ self.old.first) }
    {
        self.rise_again();
        if self.first.is_none() {
            self.first = Some(reason);
        }
    }

    /// One more failure, whose reason was told elsewhere.
    pub fn rise_again(&mut self)
        ensures later { self.old.count ≤ self.new.count }
        ensures rose { Rose self.old.count self.new.count }
        ensures first { self.new.first ≡ self.old.first }
    {
        self.count = self.count.saturating_add(1);
    }
}
