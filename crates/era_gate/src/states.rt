//! What the acts so far say of a stripe and of the keeper. No value of these types is made: views hold them.

use crate::stays::{Miss, Stay, Told};
use era_model::{Entry, FlightWrite};
use std::collections::LinkedList;

/// A stripe: whether it is inside, its open write, all its stays and the entries that it drew, each in order.
pub struct StripeState {
    pub inside: bool,
    pub flight: Option<FlightWrite>,
    pub stays: LinkedList<Stay>,
    pub entries: LinkedList<Entry>,
}

/// The keeper: the era of the gate word, whether the switch to it is drawn, the failed exchange whose event isn't drawn
/// yet, those whose event is drawn, and the entries that the keeper drew, in order.
pub struct KeeperState {
    pub era: u32,
    pub switched: bool,
    pub pending: Option<Miss>,
    pub told: LinkedList<Told>,
    pub entries: LinkedList<Entry>,
}
