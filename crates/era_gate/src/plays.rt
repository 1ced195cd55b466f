//! The kinds of atomic step, by what each tells its seat. No value of these types is made.

use crate::about::About;
use crate::parts::View;
use atomic_table::{Join, Play, Split};
use std::marker::PhantomData;

/// A stripe enters.
pub(crate) struct Enter<B> {
    of: PhantomData<B>,
}

impl<B: About> Play<(), View> for Enter<B> {
    ghost use Rattle.era_gate.specs.Plays.{Enters};

    ghost then = { Enters B.id };
}

/// A stripe leaves.
pub(crate) struct Leave;

impl Play<(), View> for Leave {
    ghost use Rattle.era_gate.specs.Plays.{Leaves};

    ghost then = { Leaves };
}

/// A stripe draws the next place.
pub(crate) struct Draw<B> {
    of: PhantomData<B>,
}

impl<B: About> Play<(), View> for Draw<B> {
    ghost use Rattle.era_gate.specs.Plays.{Draws};

    ghost then = { Draws B.event };
}

/// The keeper draws the next place.
pub(crate) struct KeeperDraw<B> {
    of: PhantomData<B>,
}

impl<B: About> Play<(), View> for KeeperDraw<B> {
    ghost use Rattle.era_gate.specs.Plays.{KeeperDraws};

    ghost then = { KeeperDraws B.event };
}

/// A stripe looks at the bit of the block of that number.
pub(crate) struct Look<B> {
    of: PhantomData<B>,
}

impl<B: About> Play<(), View> for Look<B> {
    ghost use Rattle.era_gate.specs.Plays.{Looks};

    ghost then = { Looks B.number };
}

/// The keeper sets a bit.
pub(crate) struct Set;

impl Play<(), View> for Set {
    ghost use Rattle.era_gate.specs.Plays.{Stays};

    ghost then = { Stays };
}

/// The keeper clears the spare word of that number.
pub(crate) struct Clear<B> {
    of: PhantomData<B>,
}

impl<B: About> Play<(), View> for Clear<B> {
    ghost use Rattle.era_gate.specs.Plays.{Clears};

    ghost then = { Clears B.number };
}

/// The keeper exchanges the gate word.
pub(crate) struct Exchange;

impl Play<(), View> for Exchange {
    ghost use Rattle.era_gate.specs.Plays.{Exchanges};

    ghost then = { Exchanges };
}

/// The first stripe goes to a seat of its own.
pub(crate) struct StripeOff;

impl Split<View> for StripeOff {
    ghost use Rattle.era_gate.specs.Parts.{stripe_view};
    ghost use Rattle.era_gate.specs.Plays.{without_stripe, part_of};

    ghost left = { without_stripe };

    ghost right = { λ view. stripe_view (part_of view) };
}

/// The keeper goes to a seat of its own.
pub(crate) struct KeeperOff;

impl Split<View> for KeeperOff {
    ghost use Rattle.era_gate.specs.Parts.{keeper_view};
    ghost use Rattle.era_gate.specs.Plays.{without_keeper, keeper_of};

    ghost left = { without_keeper };

    ghost right = { λ view. keeper_view (keeper_of view) };
}

/// The pass goes to a seat of its own.
pub(crate) struct PassOff;

impl Split<View> for PassOff {
    ghost use Rattle.era_gate.specs.Parts.{pass_view};
    ghost use Rattle.era_gate.specs.Plays.{without_pass};

    ghost left = { without_pass };

    ghost right = { λ view. pass_view view.pass };
}

/// A seat without a pass takes one in.
pub(crate) struct PassIn;

impl Join<View> for PassIn {
    ghost use Rattle.era_gate.specs.Parts.{pass_view, no_pass};
    ghost use Rattle.era_gate.specs.Plays.{with_pass_of};

    ghost both = { with_pass_of };

    ghost spent = { pass_view no_pass };
}

/// A seat takes in a stripe.
pub(crate) struct StripeIn;

impl Join<View> for StripeIn {
    ghost use Rattle.era_gate.specs.Parts.{pass_view, no_pass};
    ghost use Rattle.era_gate.specs.Plays.{with_stripe};

    ghost both = { with_stripe };

    ghost spent = { pass_view no_pass };
}

/// The lanes from the number on, and a budget, go to a pass of their own.
pub(crate) struct LanesOff<B> {
    of: PhantomData<B>,
}

impl<B: About> Split<View> for LanesOff<B> {
    ghost use Rattle.era_gate.specs.Calls.{cut_down, cut_off};
    ghost use Rattle.era_gate.specs.Parts.{pass_view};

    ghost left = { λ view. pass_view (cut_down view.pass B.number B.budget) };

    ghost right = { λ view. pass_view (cut_off view.pass B.number B.budget) };
}

/// A pass takes in another.
pub(crate) struct LanesIn;

impl Join<View> for LanesIn {
    ghost use Rattle.era_gate.specs.Calls.{joined_pass};
    ghost use Rattle.era_gate.specs.Parts.{pass_view, no_pass};

    ghost both = { λ view other. pass_view (joined_pass view.pass other.pass) };

    ghost spent = { pass_view no_pass };
}

/// The pass of a stripe's seat goes to a seat of its own, and knows of the stripe's stays.
pub(crate) struct Learn;

impl Split<View> for Learn {
    ghost use Rattle.era_gate.specs.Calls.{learns};
    ghost use Rattle.era_gate.specs.Parts.{pass_view};
    ghost use Rattle.era_gate.specs.Plays.{part_of, without_pass};

    ghost left = { without_pass };

    ghost right = { λ view. pass_view (learns view.pass (part_of view)) };
}

/// The first stripe goes to a seat of its own, and has seen the block of that number.
pub(crate) struct Show<B> {
    of: PhantomData<B>,
}

impl<B: About> Split<View> for Show<B> {
    ghost use Rattle.std.specs.Prelude.{true};
    ghost use Rattle.era_gate.specs.Calls.{sees};
    ghost use Rattle.era_gate.specs.Parts.{stripe_view};
    ghost use Rattle.era_gate.specs.Plays.{part_of, without_stripe};

    ghost left = { without_stripe };

    ghost right = { λ view. stripe_view (sees (part_of view) true B.number) };
}
