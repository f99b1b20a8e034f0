// The stops of a load: what is handed in, how they are held, and how one is found by its id. Which are sent back is told in `stop_answer`.
#![tactic(auto)]

pub mod find;
pub mod taken;

use place::Degrees;
use texts::{ID_BYTES, Text};

// How many stops a load holds.
pub const STOPS: usize = 128;

// How many bytes a name has at most.
pub const NAME_BYTES: usize = 64;

// What stands for no parent and no place in arrays of numbers.
pub const NO_STOP: u16 = 65535;

// The parent is the number of a station. `location_type` is a number and no enum: what is handed in beside the texts goes in as it is.
#[derive(Clone, Copy, Debug, Default, PartialEq)]
pub struct Stop {
    pub id: Text<ID_BYTES>,
    pub name: Option<Text<NAME_BYTES>>,
    pub parent: Option<u16>,
    pub location_type: u8,
    pub degrees: Option<Degrees>,
    pub members: u8,
}

// What is handed in beside the texts: id, name and parent's id. Any `location_type` may be, and one above 1 is sent back.
#[derive(Clone, Copy, Debug, PartialEq)]
pub struct StopInput {
    pub location_type: u8,
    pub degrees: Option<Degrees>,
    pub members: u8,
}

// A stop as it is handed in, its texts lent.
#[derive(Clone, Copy, Debug, PartialEq)]
pub struct NewStop<'a> {
    pub id: &'a [u8],
    pub name: Option<&'a [u8]>,
    pub parent: Option<&'a [u8]>,
    pub input: StopInput,
}
