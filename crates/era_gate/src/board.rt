//! The table that the threads of a gate share.

use crate::parts::View;
use crate::plan::Plan;
use atomic_table::{Seat, Table, TableRule};
use std::alloc::Global;

/// The rule of a gate. No value of it is made.
pub struct GateRule;

impl TableRule<(), View, Plan> for GateRule {
    ghost use Rattle.era_gate.specs.Rule.{Ruled};
    ghost use Rattle.era_gate.specs.Parts.{first_view};

    ghost holds = { Ruled };

    ghost first = { first_view };
}

/// Word 0 counts who is inside, word 1 the places drawn; two bitmaps follow. It has no slot.
pub type Board = Table<(), View, Plan, GateRule, Global>;

/// A thread's place at the table.
pub type Place = Seat<(), View>;
