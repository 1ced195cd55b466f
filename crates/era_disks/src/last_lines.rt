//! The last lines of a text that goes by, as far as they are short.

ghost use Rattle.std.specs.Prelude.{◌≡◌, ◌≤◌, true, length};

/// How many bytes of a line are kept.
const MOST_KEPT: usize = 64;

/// The front of a line, up to 64 bytes, and whether the line is longer.
#[derive(Clone, Copy, Debug)]
pub struct KeptLine {
    pub bytes: [u8; MOST_KEPT],
    pub count: usize,
    pub cut: bool,
    pub ghost sized: { length bytes ≡ 64 },
    pub ghost within: { count ≤ 64 },
    pub ghost full: { cut ≡ true → count ≡ 64 },
}

impl KeptLine {
    ghost use Rattle.std.specs.Prelude.{◌≡◌, ◌<◌, ◌∷◌, ◌++◌, [], ℕ, List, length, MatchOption};
    ghost use Rattle.era_disks.specs.LastLines.{IsKept};

    /// A line without bytes.
    pub fn new() -> KeptLine
        ensures { IsKept [] result }
    {
        KeptLine {
            bytes: [0; MOST_KEPT],
            count: 0,
            cut: false,
        }
    }

    /// The line, and `None` where it is longer than what was kept of it.
    pub fn whole(&self) -> Option<&[u8]>
        ensures { (line : List ℕ) → IsKept line self.now
            → MatchOption result (64 < length line) (λ bytes. bytes.now ≡ line) }
    {
        if self.cut {
            None
        } else {
            Some(self.bytes.split_at(self.count).0)
        }
    }

    /// One more byte of the line.
    fn push(&mut self, byte: u8)
        ensures { (line : List ℕ) → IsKept line self.old → IsKept (line ++ byte ∷ []) self.new }
    {
        if self.count < MOST_KEPT {
            self.bytes[self.count] = byte;
            self.count += 1;
        } else {
            self.cut = true;
        }
    }
}

/// The line that isn't ended yet, the last one that is, and the one before that.
#[derive(Clone, Copy, Debug)]
pub struct LastLines {
    pub begun: KeptLine,
    pub last: KeptLine,
    pub before: KeptLine,
}

impl LastLines {
    ghost use Rattle.era_disks.specs.LastLines.{TextEnd, KeepsEnd, end_after, end_after_byte, no_text};

    /// The lines of an empty text.
    pub fn new() -> LastLines
        ensures { KeepsEnd no_text result }
    {
        LastLines {
            begun: KeptLine::new(),
            last: KeptLine::new(),
            before: KeptLine::new(),
        }
    }

    /// The text goes on.
    pub fn add(&mut self, text: &[u8])
        ensures { (end : TextEnd) → KeepsEnd end self.old
            → KeepsEnd (end_after end text.now) self.new }
    {
        for byte in text {
            self.push(*byte);
        }
    }

    /// The text goes on by one byte.
    fn push(&mut self, byte: u8)
        ensures { (end : TextEnd) → KeepsEnd end self.old
            → KeepsEnd (end_after_byte end byte) self.new }
    {
        if byte == b'\n' {
            self.before = self.last;
            self.last = self.begun;
            self.begun = KeptLine::new();
        } else {
            self.begun.push(byte);
        }
    }
}
