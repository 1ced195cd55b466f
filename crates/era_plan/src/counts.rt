//! How much was read of a session.

ghost use Rattle.std.specs.Prelude.{◌≡◌, ◌≤◌, All, length};

/// How much was read of a session: its lines, its commands in all and in each lane, and their bytes.
#[derive(Clone, Copy, Debug)]
pub struct Counts {
    pub lines: u32,
    pub commands: u32,
    pub payload: u32,
    pub lanes: [u32; 64],
    pub ghost few_lines: { lines ≤ 131072 },
    pub ghost few_commands: { commands ≤ 65536 },
    pub ghost little_payload: { payload ≤ 268435456 },
    pub ghost sized: { length lanes ≡ 64 },
    pub ghost within: { All (λ count. count ≤ commands) lanes },
}

impl Counts {
    ghost use Rattle.era_plan.specs.Reading.{IsBetween};
    ghost use Rattle.era_plan.specs.Stream.{at_beginning};

    /// Nothing was read.
    pub fn new() -> Counts
        ensures { IsBetween result at_beginning }
    {
        Counts {
            lines: 0,
            commands: 0,
            payload: 0,
            lanes: [0; 64],
        }
    }
}
