//! What passes are worth over several calls. The functions do nothing; their clauses are the laws.

ghost use Rattle.std.specs.Prelude.{◌≡◌, ◌≤◌, ◌+◌, ◌||◌, ℕ, Bool, max, slice_index};
ghost use Rattle.era_base.specs.Flags.{tabulate};
ghost use Rattle.era_base.specs.declared.ids.CmdId.{CmdId};
ghost use Rattle.era_gate.specs.Calls.{PassToken, cut_down, cut_off, joined_pass};
ghost use Rattle.era_gate.specs.Parts.{new_lane};
ghost use Rattle.era_gate.specs.Passes.{HasSame, KeepsPass, rejoined};
ghost use Rattle.era_gate.specs.declared.parts.PassPart.{PassPart};

/// A pass that is split and joined again has what it had: its lanes, each with its receipts, its floor and budget, and
/// what it knew of stays.
pub fn split_and_joined_passes_are_whole()
    ensures { (pass : PassPart) (first budget : ℕ) → budget ≤ pass.budget
        → HasSame (rejoined pass first budget) pass }
{}

/// A pass that is kept over some calls, and then over others, is kept over all of them.
pub fn passes_are_kept_over_calls()
    ensures { (drawn more : ℕ) (issued others : CmdId → Bool) (a b c : PassToken)
        → KeepsPass drawn issued a b → KeepsPass more others b c
        → KeepsPass (drawn + more) (λ id. issued id || others id) a c }
{}

/// Of two passes that were joined, each stripe's stays are known as begun, or ended, below the greater of both numbers.
pub fn joined_passes_know_what_either_knew()
    ensures begun { (pass other : PassPart) (d : ℕ) → slice_index (joined_pass pass other).begun d
        ≡ max (slice_index pass.begun d) (slice_index other.begun d) }
    ensures ended { (pass other : PassPart) (d : ℕ) → slice_index (joined_pass pass other).ended d
        ≡ max (slice_index pass.ended d) (slice_index other.ended d) }
{}

/// Lanes in order and without receipts, as `make` gives them, are cut into the first of them and the others.
pub fn new_lanes_are_cut()
    ensures below { (pass : PassPart) (low few more budget : ℕ)
        → pass.lanes ≡ tabulate low (few + more) new_lane
        → (cut_down pass (low + few) budget).lanes ≡ tabulate low few new_lane }
    ensures above { (pass : PassPart) (low few more budget : ℕ)
        → pass.lanes ≡ tabulate low (few + more) new_lane
        → (cut_off pass (low + few) budget).lanes ≡ tabulate (low + few) more new_lane }
{}
