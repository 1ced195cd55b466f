//! Seats and passes: what stripes, the keeper and lanes hold of the gate. They have no bytes but an era.

use crate::board::Place;
use crate::parts::View;
use atomic_table::Badge;
use std::marker::Model;

/// The seat of one stripe. Contracts see its table and its part.
#[derive(Drop)]
pub struct StripeSeat {
    pub(crate) place: Place,
    pub(crate) era: u32,
}

impl Model for StripeSeat {
    ghost use Rattle.std.specs.Prelude.{◌≡◌, []};
    ghost use Rattle.era_gate.specs.Calls.{StripeToken};
    ghost use Rattle.era_gate.specs.Parts.{stripe_view};
    ghost use Rattle.era_gate.specs.Plays.{part_of};

    ghost Value = { StripeToken };

    ghost view = { λ s. record { table = s.place.table_id; part = part_of s.place.me.0 } };

    ghost invariant = { λ s. (s.place.me ≡ (stripe_view (part_of s.place.me.0), []))
        × (s.era ≡ (part_of s.place.me.0).era) };
}

/// The seat of the keeper. Contracts see its table and its part.
#[derive(Drop)]
pub struct KeeperSeat {
    pub(crate) place: Place,
    pub(crate) era: u32,
}

impl Model for KeeperSeat {
    ghost use Rattle.std.specs.Prelude.{◌≡◌, []};
    ghost use Rattle.era_gate.specs.Calls.{KeeperToken};
    ghost use Rattle.era_gate.specs.Parts.{keeper_view};
    ghost use Rattle.era_gate.specs.Plays.{keeper_of};

    ghost Value = { KeeperToken };

    ghost view = { λ s. record { table = s.place.table_id; part = keeper_of s.place.me.0 } };

    ghost invariant = { λ s. (s.place.me ≡ (keeper_view (keeper_of s.place.me.0), []))
        × (s.era ≡ (keeper_of s.place.me.0).state.era) };
}

/// A lane's leave to draw, with what it was given. Contracts see its table and its part.
#[derive(Drop)]
pub struct Pass {
    pub(crate) badge: Badge<View>,
}

impl Model for Pass {
    ghost use Rattle.std.specs.Prelude.{◌≡◌, [], ◌∷◌};
    ghost use Rattle.era_gate.specs.Calls.{PassToken};
    ghost use Rattle.era_gate.specs.Parts.{pass_in, pass_view};

    ghost Value = { PassToken };

    ghost view = { λ p. record { table = p.badge.table_id; part = pass_in p.badge.views } };

    ghost invariant = { λ p. p.badge.views ≡ pass_view (pass_in p.badge.views) ∷ [] };
}
