//! What the entries of a keeper say that a crash may leave of the first four blocks, the era and the snapshot.

use era_base::Disk;
use era_meta::{LiveMarks, Meta};
use era_model::{Entry, Event, Kind, Why};
use era_notes::Chunks;

/// The era in which each of the first four blocks was last marked, 0 for never.
pub type Lasts = [u32; 4];

/// The present era, the last marked eras, and those of the snapshot, if one is held.
#[derive(Clone, Copy, Debug, PartialEq, Eq)]
pub struct Found {
    pub era: u32,
    pub lasts: Lasts,
    pub held: Option<Lasts>,
}

/// Which kinds of commands failed at the metadata behind the last commit.
#[derive(Clone, Copy, Debug, PartialEq, Eq)]
struct Failed {
    write: bool,
    switch: bool,
    snap: bool,
}

/// None failed.
const NONE_FAILED: Failed = Failed {
    write: false,
    switch: false,
    snap: false,
};

/// What entries come to: the marks and the snapshot, the era in which each block was last asked for, what failed behind
/// the last commit, and behind the one before the last switch, and whether that switch is the last answer.
#[derive(Clone, Copy, Debug, PartialEq, Eq)]
pub struct Story {
    now: Found,
    tried: Lasts,
    failed: Failed,
    before: Failed,
    switching: bool,
}

/// A session that opened in era 1 without marks, before any entry.
const OPENED: Story = Story {
    now: Found {
        era: 1,
        lasts: [0; 4],
        held: None,
    },
    tried: [0; 4],
    failed: NONE_FAILED,
    before: NONE_FAILED,
    switching: false,
};

/// The block's last marked era, 0 for never.
fn last_of(marks: &LiveMarks, block: u32) -> u32 {
    if block < marks.blocks() {
        marks.last_era(block)
    } else {
        0
    }
}

/// The last marked eras of the first four blocks.
fn lasts_of(marks: &LiveMarks) -> Lasts {
    [
        last_of(marks, 0),
        last_of(marks, 1),
        last_of(marks, 2),
        last_of(marks, 3),
    ]
}

/// What metadata stands for.
pub fn found_of<D: Disk>(meta: &Meta<D>) -> Found {
    let held = if meta.held() {
        Some(lasts_of(&meta.snapshot.marks))
    } else {
        None
    };
    Found {
        era: meta.era(),
        lasts: lasts_of(&meta.marks),
        held,
    }
}

/// The last eras with one of them changed.
fn with(lasts: Lasts, block: u32, era: u32) -> Lasts {
    let [first, second, third, fourth] = lasts;
    match block {
        0 => [era, second, third, fourth],
        1 => [first, era, third, fourth],
        2 => [first, second, era, fourth],
        3 => [first, second, third, era],
        _ => lasts,
    }
}

impl Failed {
    /// A command of a kind failed too.
    fn and(self, kind: Kind) -> Failed {
        Failed {
            write: self.write || kind == Kind::Write,
            switch: self.switch || kind == Kind::Checkpoint,
            snap: self.snap || kind == Kind::TakeSnap || kind == Kind::DropSnap,
        }
    }

    /// What either has.
    fn or(self, other: Failed) -> Failed {
        Failed {
            write: self.write || other.write,
            switch: self.switch || other.switch,
            snap: self.snap || other.snap,
        }
    }
}

impl Story {
    /// A commit came to these marks and this snapshot.
    fn commits(self, now: Found) -> Story {
        Story {
            now,
            failed: NONE_FAILED,
            before: NONE_FAILED,
            switching: false,
            ..self
        }
    }

    /// The era was switched; whether that is committed, a refusal behind it tells.
    fn switches(self, era: u32) -> Story {
        Story {
            before: self.failed,
            switching: true,
            ..self.commits(Found { era, ..self.now })
        }
    }

    /// A command of a kind failed. Where it is a checkpoint, the last switch wasn't committed.
    fn fails(self, kind: Kind) -> Story {
        let before = if kind == Kind::Checkpoint {
            self.before
        } else {
            NONE_FAILED
        };
        Story {
            failed: self.failed.or(before).and(kind),
            ..self
        }
    }

    /// The story with one more event.
    fn follow(self, event: &Event) -> Story {
        let now = self.now;
        match event {
            Event::Tried { block, era, .. } => Story {
                tried: with(self.tried, *block, *era),
                switching: false,
                ..self
            },
            Event::Mark { block, era, .. } => self.commits(Found {
                lasts: with(now.lasts, *block, *era),
                ..now
            }),
            Event::Roll { era, .. } => self.switches(*era),
            Event::Snap { .. } => self.commits(Found {
                held: Some(now.lasts),
                ..now
            }),
            Event::Dropped { .. } => self.commits(Found { held: None, ..now }),
            Event::Digest { .. } => self.commits(now),
            Event::Refused { kind, why, .. } => match why {
                Why::MetaFault(_) => self.fails(*kind),
                _ => self,
            },
            _ => Story {
                switching: false,
                ..self
            },
        }
    }

    /// The story with more entries.
    fn follow_all(self, entries: &[Entry]) -> Story {
        let mut story = self;
        for entry in entries {
            story = story.follow(&entry.event);
        }
        story
    }

    /// What the entries of a session that opened on a blank disk come to.
    pub fn of(entries: &Chunks) -> Story {
        match entries {
            Chunks::Start => OPENED,
            Chunks::After(last, before) => Story::of(before).follow_all(last.as_slice()),
        }
    }

    /// Whether the journal comes to this.
    pub fn is_at(self, found: Found) -> bool {
        self.now == found
    }

    /// Whether the last eras may be left: those of the journal, but for one block where a mark failed that was asked for.
    fn may_have(self, lasts: Lasts) -> bool {
        let mut beyond = 0_u32;
        for block in 0..4_usize {
            if lasts[block] != self.now.lasts[block] {
                if !self.failed.write || lasts[block] != self.tried[block] {
                    return false;
                }
                beyond = beyond.saturating_add(1);
            }
        }
        beyond < 2
    }

    /// Whether the snapshot may be left: that of the journal, or where its taking or dropping failed, the other one.
    fn may_hold(self, held: Option<Lasts>) -> bool {
        let other = match self.now.held {
            Some(_) => None,
            None => Some(self.now.lasts),
        };
        held == self.now.held || self.failed.snap && held == other
    }

    /// Whether a crash may leave this: its era is the present one, or the one before it where a checkpoint failed and
    /// nothing but refusals was drawn since.
    pub fn may_leave(self, found: Found) -> bool {
        let goes_back = self.failed.switch && self.switching;
        let era = self.now.era;
        (found.era == era || goes_back && era.checked_sub(1) == Some(found.era))
            && self.may_have(found.lasts)
            && self.may_hold(found.held)
    }
}
