// The walk of an offer over the kept rows: to the first that covers it or that it covers.
ghost use Rattle.std.specs.Prelude.{◌≡◌, ◌+◌, ◌*◌, ◌≤◌, ◌<◌, length, get_or, take};
ghost use Rattle.search_state.specs.Layout.{width, count_place, size};
ghost use Rattle.search_state.specs.View.{row_at, rows};
ghost use Rattle.candidate.specs.Pieces.{rank_by, turn_of, Ends, walk_end};
ghost use Rattle.profile.specs.Sizes.{kept_room};

use profile::Row;
use search_state::layout::{State, WIDTH};

// Whether the row whose numbers start at `at` is no worse than o by arrival, rides and walk. Number by number, from state and place:
// compared as tuples, or read as a row first, a walk takes a tenth to a quarter longer.
#[tactic(auto, unfolding(crate::specs::Pieces::rank_by, laws::specs::Lex::lexb))]
fn row_ranks(st: &State, at: usize, o: Row) -> bool
    requires { at < count_place }
    ensures { result ≡ rank_by (get_or st.now (at + 1) 0) (get_or st.now (at + 2) 0) (get_or st.now (at + 3) 0)
        o.arrival o.rides o.walk }
{
    st[at + 1] <= o.arrival
        && (st[at + 1] < o.arrival
            || st[at + 2] < o.rides
            || st[at + 2] == o.rides && st[at + 3] <= o.walk)
}

// Whether o is no worse than that row.
#[tactic(auto, unfolding(crate::specs::Pieces::rank_by, laws::specs::Lex::lexb))]
fn offer_ranks(st: &State, at: usize, o: Row) -> bool
    requires { at < count_place }
    ensures { result ≡ rank_by o.arrival o.rides o.walk
        (get_or st.now (at + 1) 0) (get_or st.now (at + 2) 0) (get_or st.now (at + 3) 0) }
{
    o.arrival <= st[at + 1]
        && (o.arrival < st[at + 1]
            || o.rides < st[at + 2]
            || o.rides == st[at + 2] && o.walk <= st[at + 3])
}

// What the walk of an offer does at a row: it goes on, the row covers the offer, or it stops there.
#[derive(Clone, Copy, Debug, PartialEq, Eq)]
enum Turn {
    On,
    Covered,
    Stops,
}

// What the walk of o does at row i of the c kept ones, whose numbers start at `at`. A figure is read only where it decides.
fn turn_at(st: &State, at: usize, i: usize, c: usize, o: Row) -> Turn
    requires { (c ≤ kept_room) × (i ≤ c) × (at ≡ i * width) × Ends st.now c o }
    ensures { result ≡ turn_of i c o (row_at st.now i) }
{
    if st[at] < o.leave {
        if offer_ranks(st, at, o) {
            return Turn::Stops;
        }
        return Turn::On;
    }
    if st[at] == o.leave {
        if i < c && row_ranks(st, at, o) {
            return Turn::Covered;
        }
        return Turn::Stops;
    }
    if row_ranks(st, at, o) {
        return Turn::Covered;
    }
    Turn::On
}

// The walk of o over the c kept rows: as a search, `Ok` has the place of the row that covers o; where none does, `Err` has where the
// numbers of the first that o covers start, or of the slot behind them all. The loop carries both: a place divided out of `at` costs time
// at the first rows (bench/README.md). `count` is read once for an offer; that c is at most 64 each function asks, as a type would be
// opened at every use.
pub fn first_near(st: &State, c: usize, o: Row) -> Result<u16, u16>
    requires { (c ≤ kept_room) × Ends st.now c o }
    ensures { result ≡ walk_end o (take c (rows st.now)) }
{
    let mut i = 0;
    let mut at = 0;
    // A loop without an end: the marked slot behind the rows stops it. Counting was slower in some cases (docs/SPEED.md).
    loop {
        match turn_at(st, at, i, c, o) {
            Turn::On => {}
            Turn::Covered => return Ok(i as u16),
            Turn::Stops => return Err(at as u16),
        }
        i += 1;
        at += WIDTH;
    }
}
