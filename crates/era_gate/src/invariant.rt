//! The invariant of the gate, shown of its rule. The function does nothing; its clause is the law.

ghost use Rattle.atomic_table.specs.Table.{State};
ghost use Rattle.era_gate.specs.Invariant.{GateInvariant};
ghost use Rattle.era_gate.specs.Rule.{Ruled};
ghost use Rattle.era_gate.specs.declared.parts.View.{View};
ghost use Rattle.era_gate.specs.declared.plan.Plan.{Plan};

/// Between any two steps, since the rule holds there, the eleven clauses of the gate's invariant hold of its words and of
/// the views of all seats and passes.
pub fn rule_keeps_the_invariant()
    ensures { (plan : Plan) (state : State (Unit {0}) View)
        → Ruled plan state → GateInvariant plan state.words state.views }
{}
