// The change between two stops, and whether two rides join.
ghost use Rattle.std.specs.Prelude.{◌≡◌, get_or};
ghost use Rattle.transfer.specs.Changes.{ends_of_of, change_of, join_of};
ghost use Rattle.transfer.specs.Lent.{near_in, between_of};
ghost use Rattle.stops.specs.Sizes.{no_stop};

use crate::parts::change_by;
use crate::{Ends, Transfers};
use rules::Rule;
use stops::{NO_STOP, STOPS};

// What a stop has in an array that C may lend: 65535, which is none there, past the array's end.
fn number_at(numbers: &[u16; STOPS], stop: u16) -> u16
    ensures { result ≡ get_or numbers.now stop no_stop }
{
    numbers.get(usize::from(stop)).copied().unwrap_or(NO_STOP)
}

impl<'a> Transfers<'a> {
    // The parent of a stop.
    pub fn parent(&self, stop: u16) -> u16
        ensures { result ≡ get_or self.now.parents.now stop no_stop }
    {
        number_at(self.parents, stop)
    }

    // The place of a stop.
    pub fn place(&self, stop: u16) -> u16
        ensures { result ≡ get_or self.now.places.now stop no_stop }
    {
        number_at(self.places, stop)
    }

    // Two stops and their parents.
    #[tactic(auto, unfolding(crate::specs::Changes::ends_of_of))]
    pub fn ends(&self, from: u16, to: u16) -> Ends
        ensures { result ≡ ends_of_of self.now.parents.now from to }
    {
        Ends {
            from,
            from_parent: self.parent(from),
            to,
            to_parent: self.parent(to),
        }
    }

    // The change by the rule that holds, or by nearness where there is none.
    pub fn change_by(&self, rule: Option<Rule>, ends: Ends) -> Option<u16>
        ensures { result ≡ change_of rule (near_in self.now ends) self.now.change }
    {
        let from_place = self.place(ends.from);
        let to_place = self.place(ends.to);
        change_by(rule, ends.are_near(from_place, to_place), self.change)
    }

    // The change from one stop to another.
    pub fn between(&self, from: u16, to: u16) -> Option<u16>
        ensures { result ≡ between_of self.now from to }
    {
        let ends = self.ends(from, to);
        self.change_by(ends.choose(self.rules), ends)
    }
}

// Whether a ride that arrives at `arrival` joins one that departs at `departure`, by the change between
// their stops; `one_run` says that both are of one trip and day.
pub fn join(change: Option<u16>, one_run: bool, arrival: u16, departure: u16) -> bool
    ensures { result ≡ join_of change one_run arrival departure }
{
    match change {
        Some(seconds) if !one_run => {
            u32::from(arrival) + u32::from(seconds) <= u32::from(departure)
        }
        _ => false,
    }
}
