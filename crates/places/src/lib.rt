// The places of stops: each stop of type 0, in the byte order of ids, joins the representative with the smallest id whose key matches its
// own, else is its own (RULES 7.5).
#![tactic(auto)]

mod entries;
pub mod group;

use place::PlaceKey;
use texts::{ID_BYTES, Text};

// What the grouping reads of a stop: its id, its number and its place key.
#[derive(Clone, Copy, Debug, Default, PartialEq, Eq)]
pub struct Entry {
    pub id: Text<ID_BYTES>,
    pub stop: u16,
    pub key: PlaceKey,
}
