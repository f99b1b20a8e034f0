// The calls of a load: what is handed in, what the window shows of it, and the table that it goes into. The steps on that table stand in
// crate `table`.
#![tactic(auto)]

pub mod window;

ghost use Rattle.std.specs.Prelude.{◌≡◌};
ghost use Rattle.calls.specs.Tables.{blank_call, held_key};

use refusal::Accepted;

// How many calls a table holds.
pub const CALLS: usize = 512;

// The horizon before any cut: six hours, in seconds.
pub const LONGEST_HORIZON: u16 = 21600;

// Trips are below it.
pub const NO_TRIP: u16 = 65535;

// What is handed in. `pickup` and `drop_off` are bytes, as any may be handed in: 9 tells of those above 3.
#[derive(Clone, Copy, Debug, PartialEq, Eq)]
pub struct CallInput {
    pub trip: u16,
    pub day: u8,
    pub sequence: u32,
    pub stop: u16,
    pub arrival: Option<u32>,
    pub departure: Option<u32>,
    pub pickup: u8,
    pub drop_off: u8,
}

// A call as the window shows it. `board` and `board_request` are two marks and no enum, as are those of alighting: the printed lines have
// them apart, and each is read by itself.
#[derive(Clone, Copy, Debug, Default, PartialEq, Eq)]
pub struct Call {
    pub trip: u16,
    pub day: u8,
    pub sequence: u32,
    pub stop: u16,
    pub arrival: u16,
    pub departure: u16,
    pub board: bool,
    pub alight: bool,
    pub board_request: bool,
    pub alight_request: bool,
}

// What names a call: a withdrawal is of the last call with a key. Keys come by trip, then day, then sequence.
#[derive(Clone, Copy, Debug, PartialEq, Eq, PartialOrd, Ord)]
pub struct CallKey {
    pub trip: u16,
    pub day: u8,
    pub sequence: u32,
}

impl Call {
    pub fn key(self) -> CallKey
        ensures { result ≡ held_key self }
    {
        CallKey {
            trip: self.trip,
            day: self.day,
            sequence: self.sequence,
        }
    }
}

// What becomes of a call for which nothing is cut: it goes in, or lies outside. `Other`: it is sent back, or the table is full. No
// `Option`: one that lies outside is done with, another is left to the table.
#[derive(Clone, Copy, Debug, PartialEq, Eq)]
pub enum Uncut {
    In(Call),
    Outside,
    Other,
}

// An array with its count, as in `load: Load`. `limits` is a number, 1 or 0, as the scope has it and C lends it.
#[derive(Clone, Copy, Debug, PartialEq, Eq)]
pub struct Table {
    pub calls: [Call; CALLS],
    pub count: usize,
    pub horizon: u16,
    pub limits: u8,
}

// What becomes of a call that is not sent back, and the table after it: by value, as the load goes through every step.
#[derive(Clone, Copy, Debug, PartialEq, Eq)]
pub struct Fitted {
    pub accepted: Accepted,
    pub table: Table,
}

// What an unused slot holds: the default, by a name that contracts can give it.
pub fn blank_call() -> Call
    ensures { result ≡ blank_call }
{
    Call::default()
}
