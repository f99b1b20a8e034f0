// Best over journeys that the caller lends. Lent as many as they are, `best::best_over` gives it.
#![tactic(auto)]

ghost use Rattle.std.specs.Prelude.{◌≡◌, take};
ghost use Rattle.best.specs.Best.{best_of_of};

use best::best_over;
use prefix::first;
use profile::Journey;

// Best over the first `count` of the lent journeys; over all of them, if `count` is more. The count is the caller's, who lends an array.
// Horizon and second stand one by one, as in `best_over`.
pub fn best_lent(journeys: &[Journey], count: usize, horizon: u16, second: i64) -> Option<Journey>
    ensures { result ≡ best_of_of (take count journeys.now) horizon second }
{
    let lent = first(journeys, count);
    best_over(lent, horizon, second)
}
