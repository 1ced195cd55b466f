//! What a step's law speaks of beside the operands of the step.

/// The command, the event, the number and the budget of a step. Each call picks them.
pub(crate) trait About {
    ghost use Rattle.era_base.specs.declared.ids.CmdId.{CmdId};
    ghost use Rattle.era_model.specs.declared.event.Event.{Event};
    ghost use Rattle.std.specs.Prelude.{ℕ};

    ghost id: { CmdId };

    ghost event: { Event };

    ghost number: { ℕ };

    ghost budget: { ℕ };
}

impl About for std::marker::Brand {
    ghost use Rattle.era_gate.specs.Plays.{no_command, no_event};

    ghost id = { no_command };

    ghost event = { no_event };

    ghost number = { 0 };

    ghost budget = { 0 };
}
