// The four figures of a journey, and the tests by which journeys are kept and picked.
ghost use Rattle.std.specs.Prelude.{◌≡◌};
ghost use Rattle.profile.specs.Figures.{covers, prefer};
ghost use Rattle.profile.specs.Journeys.{journey_figures, row_figures};

use crate::{Found, Journey};
use std::cmp::Reverse;

// The figures by which journeys are compared.
#[derive(Clone, Copy, Debug, PartialEq, Eq)]
pub struct Figures {
    pub leave: u16,
    pub arrival: u16,
    pub rides: u16,
    pub walk: u16,
}

impl Figures {
    // Whether these equal or beat the others: they leave no earlier, and are no larger by arrival, then rides, then walk. By a comparison
    // of tuples the packing of a kept list of which each row is looked at takes a tenth longer.
    #[tactic(auto, unfolding(laws::specs::Lex::lexb))]
    pub fn covers(self, other: Figures) -> bool
        ensures { result ≡ covers self other }
    {
        other.leave <= self.leave
            && (self.arrival < other.arrival
                || self.arrival == other.arrival
                    && (self.rides < other.rides
                        || self.rides == other.rides && self.walk <= other.walk))
    }

    // Whether best takes these rather than the others, or they tie.
    pub fn preferred(self, other: Figures) -> bool
        ensures { result ≡ prefer self other }
    {
        (self.arrival, self.rides, self.walk, Reverse(self.leave))
            <= (other.arrival, other.rides, other.walk, Reverse(other.leave))
    }
}

// Methods, and no `From`: callers chain them.
impl Found<u16> {
    pub fn figures(self) -> Figures
        ensures { result ≡ row_figures self }
    {
        Figures {
            leave: self.leave,
            arrival: self.arrival,
            rides: self.rides,
            walk: self.walk,
        }
    }
}

impl Journey {
    pub fn figures(self) -> Figures
        ensures { result ≡ journey_figures self }
    {
        Figures {
            leave: self.leave,
            arrival: self.arrival,
            rides: self.rides as u16,
            walk: self.walk as u16,
        }
    }
}
