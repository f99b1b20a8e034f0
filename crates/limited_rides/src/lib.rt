// A search within a limit on joins, over lent arrays of numbers. While a first ride has no more joins than are left, its offers are made by
// the function of the full search (`rides: next_first()`), and its joins are counted at once; the search stops in the first that has more,
// and there the joins are counted in smaller blocks, in the last one by one (`last`). So a search that finishes costs what the full one
// does. What the contracts share is `After` (rides/specs/Offered.antt). A loop ends where the search is over; a chain of iterators would
// have to ask that in a closure that holds the state. State and tally are two parameters: the functions of `rides` change the state and
// know no tally. The bounds of places are asked for as in `rides`.
#![tactic(auto)]

mod counts;
pub mod earliest;
mod last;
mod paths;
mod tally;
pub mod within;

// How many joins a search tested, and whether none was left. Each is read by itself, and says of the other nothing.
#[derive(Clone, Copy, Debug, PartialEq, Eq)]
pub struct Tested {
    pub joins: u64,
    pub finished: bool,
}
