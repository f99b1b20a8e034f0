// The calls that legs name, among the calls of a load.
ghost use Rattle.std.specs.Prelude.{◌≡◌};
ghost use Rattle.connection.specs.Find.{key_of, boards, alights, find_in, find_leg, way_of};

use crate::{FoundLeg, Leg, Way};
use calls::{Call, CallKey, blank_call};
use withdrawal::last_of;

impl Leg {
    // What its call of a sequence is found by.
    fn key(self, sequence: u32) -> CallKey
        ensures { result ≡ key_of self sequence }
    {
        CallKey {
            trip: self.trip,
            day: self.day,
            sequence,
        }
    }
}

impl FoundLeg {
    // Where it boards, and where it alights: the blank call where none was found, which is a cause that comes before all that reads it.
    pub fn boards(&self) -> Call
        ensures { result ≡ boards self.now }
    {
        self.board.unwrap_or(blank_call())
    }

    pub fn alights(&self) -> Call
        ensures { result ≡ alights self.now }
    {
        self.alight.unwrap_or(blank_call())
    }
}

// The last of the calls with the key; of a searched load there is one at most.
pub fn find(calls: &[Call], key: CallKey) -> Option<Call>
    ensures { result ≡ find_in calls.now key }
{
    let at = last_of(calls, key)?;
    Some(calls[at])
}

pub fn find_leg(calls: &[Call], leg: Leg) -> FoundLeg
    ensures { result ≡ find_leg calls.now leg }
{
    FoundLeg {
        board: find(calls, leg.key(leg.board)),
        alight: find(calls, leg.key(leg.alight)),
    }
}

pub fn way_of(calls: &[Call], legs: [Leg; 3]) -> Way
    ensures { result ≡ way_of calls.now legs }
{
    Way {
        first: find_leg(calls, legs[0]),
        second: find_leg(calls, legs[1]),
        third: find_leg(calls, legs[2]),
    }
}
