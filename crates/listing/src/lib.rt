// What a list of journeys says of one that can be made: whether it is listed, and which listed journey is as good or beats it.
#![tactic(auto)]

ghost use Rattle.std.specs.Prelude.{◌≡◌};
ghost use Rattle.profile.specs.Figures.{covᶠ};
ghost use Rattle.profile.specs.Journeys.{journey_figures};
ghost use Rattle.listing.specs.Listed.{place_of, place_as_good, place_over, listed_in_of};

use connection::Cause;
use profile::Journey;

// What is said of a connection. A journey of the list is named by its place, from 0.
#[derive(Clone, Copy, Debug, PartialEq, Eq)]
pub enum Verdict {
    // Nothing: there is no list, as no search of the load is finished.
    NotFinished,
    // Nothing: it is due after the horizon.
    Late,
    Listed(usize),
    // Another journey, but the same leave, arrival, rides and walk.
    AsGood(usize),
    Beaten(usize),
    // No journey of the list equals or beats it: of no load that steps make.
    Uncovered,
    Impossible(Cause),
}

// Whether a equals or beats b.
pub fn covers_journey(a: Journey, b: Journey) -> bool
    ensures { result ≡ covᶠ journey_figures a b }
{
    a.figures().covers(b.figures())
}

// The place of the first journey that is j.
fn place_of(journeys: &[Journey], j: Journey) -> Option<usize>
    ensures { result ≡ place_of journeys.now j }
{
    journeys.iter().position(|k| *k == j)
}

// Of the first with j's figures: leave, arrival, rides and walk.
#[tactic(auto, unfolding(crate::specs::Same::same_figures))]
fn place_as_good(journeys: &[Journey], j: Journey) -> Option<usize>
    ensures { result ≡ place_as_good journeys.now j }
{
    journeys.iter().position(|k| k.figures() == j.figures())
}

// Of the first that equals or beats j.
fn place_over(journeys: &[Journey], j: Journey) -> Option<usize>
    ensures { result ≡ place_over journeys.now j }
{
    journeys.iter().position(|k| covers_journey(*k, j))
}

// Listed, else as good as one of the list, else beaten by one.
pub fn listed(journeys: &[Journey], j: Journey) -> Verdict
    ensures { result ≡ listed_in_of journeys.now j }
{
    if let Some(at) = place_of(journeys, j) {
        return Verdict::Listed(at);
    }
    if let Some(at) = place_as_good(journeys, j) {
        return Verdict::AsGood(at);
    }
    if let Some(at) = place_over(journeys, j) {
        return Verdict::Beaten(at);
    }
    Verdict::Uncovered
}
