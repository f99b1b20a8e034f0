// From when on offers that differ in arrival alone are passed over, row by row from the last.
ghost use Rattle.std.specs.Prelude.{◌≡◌, true, ℕ, leb};
ghost use Rattle.profile.specs.Figures.{lexb};
ghost use Rattle.search_state.specs.View.{view};
ghost use Rattle.candidate.specs.Offer.{with_figures, passed_over, PassedFrom};
ghost use Rattle.candidate.specs.Pieces.{covers_from, stays_from, row_from};

use profile::Row;
use search_state::layout::State;
use search_state::{count, horizon, is_refused, kept};

// Whether the one (rides, walk) is no larger than the other.
#[tactic(auto, unfolding(laws::specs::Lex::lexb))]
fn is_no_larger(rides: u16, walk: u16, other_rides: u16, other_walk: u16) -> bool
    ensures { result ≡ lexb rides other_rides (leb walk other_walk) }
{
    rides < other_rides || rides == other_rides && walk <= other_walk
}

// From when on the row k equals or beats what has so many rides and such a walk and leaves no later.
#[tactic(auto, unfolding(crate::specs::Pieces::covers_from))]
fn covers_from(k: Row, rides: u16, walk: u16) -> u32
    ensures { result ≡ covers_from k rides walk }
{
    if is_no_larger(k.rides, k.walk, rides, walk) {
        return k.arrival as u32;
    }
    k.arrival as u32 + 1
}

// From when on k is not equalled or beaten by what has so many rides and such a walk and leaves no earlier.
#[tactic(auto, unfolding(crate::specs::Pieces::stays_from))]
fn stays_from(k: Row, rides: u16, walk: u16) -> u32
    ensures { result ≡ stays_from k rides walk }
{
    if is_no_larger(rides, walk, k.rides, k.walk) {
        return k.arrival as u32 + 1;
    }
    k.arrival as u32
}

// From when on a walk that begins at k passes over, if one that begins behind it does so from t on. A row that leaves earlier would stop
// the walk until then; of the rows that a search keeps none beats another, so there `stays_from` is never past t.
#[tactic(auto, unfolding(crate::specs::Pieces::row_from))]
fn row_from(k: Row, leave: u16, rides: u16, walk: u16, t: u32) -> u32
    ensures { result ≡ row_from leave rides walk k t }
{
    if k.leave < leave {
        return t.max(stays_from(k, rides, walk));
    }
    if k.leave == leave {
        return covers_from(k, rides, walk);
    }
    t.min(covers_from(k, rides, walk))
}

// The least arrival from which on the offer of a journey with this leave, rides and walk would be passed over. It is past 65535 where the
// horizon is 65535 and nothing kept is in the way.
pub fn threshold(st: &State, leave: u16, rides: u16, walk: u16) -> u32
    ensures { PassedFrom (view st.now) leave rides walk result }
{
    if is_refused(st) {
        return 0;
    }
    let late = horizon(st) as u32 + 1;
    let mut t = late;
    for i in (0..count(st)).rev() {
        t = row_from(kept(st, i), leave, rides, walk, t);
    }
    t.min(late)
}

// An arrival from which on every offer would be passed over.
pub fn late(st: &State) -> u32
    ensures { (leave rides walk : ℕ) → passed_over (view st.now)
        (with_figures (record { leave = leave; arrival = result; rides = rides; walk = walk })) ≡ true }
{
    horizon(st) as u32 + 1
}
