// The joins left of a search within a limit; none of them, once a join past it was met.
ghost use Rattle.std.specs.Prelude.{◌≡◌};
ghost use Rattle.search_state.specs.View.{view};
ghost use Rattle.limited_rides.specs.Runs.{run_at, is_over, has_left, Spent};

use search_state::is_refused;
use search_state::layout::State;

pub type Tally = Option<u64>;

// Whether n joins are left.
pub fn has_left(tally: Tally, n: u64) -> bool
    ensures { result ≡ has_left tally n }
{
    match tally {
        Some(left) => n <= left,
        None => false,
    }
}

// n joins are tested: what is left falls by n, or the search stops.
pub fn spend(tally: &mut Tally, n: u64)
    ensures { Spent tally.old tally.new n }
{
    if let Some(left) = *tally {
        *tally = left.checked_sub(n);
    }
}

// Whether nothing can change any more: the search is refused, or has stopped.
pub fn is_over(st: &State, tally: Tally) -> bool
    ensures { result ≡ is_over (run_at (view st.now) tally) }
{
    match tally {
        Some(_) => is_refused(st),
        None => true,
    }
}
