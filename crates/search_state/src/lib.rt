// The running state of a search, a lent array of numbers (`layout`): slots of a row each, the last of them spare, then the count, the
// horizon, limits and refused. `view` says which state it is. It is made and read here. Numbers at fixed places and no struct: C
// lends the array, and a struct is copied at every offer (docs/SPEED.md).
#![tactic(auto)]

ghost use Rattle.std.specs.Prelude.{◌≡◌, not, [], ◌<◌, get_or};
ghost use Rattle.profile.specs.Kept.{going, too_late};
ghost use Rattle.profile.specs.Journeys.{no_row};
ghost use Rattle.search_state.specs.Layout.{slots};
ghost use Rattle.search_state.specs.View.{slot, rows, count_of, horizon_of, limits_of, kept_of, open_of, view};

pub mod layout;

use crate::layout::{COUNT, HORIZON, LIMITS, REFUSED, SIZE, SLOTS, State, WIDTH};
use profile::{KEPT, Row, no_row};

// The row in slot i.
fn slot_at(st: &State, i: usize) -> Row
    requires { i < slots }
    ensures { result ≡ slot st.now i }
{
    let at = i * WIDTH;
    Row {
        leave: st[at],
        arrival: st[at + 1],
        rides: st[at + 2],
        walk: st[at + 3],
        origin: st[at + 4],
        target: st[at + 5],
        board: st[at + 6],
        alight: st[at + 7],
        board2: st[at + 8],
        alight2: st[at + 9],
        middle_board: st[at + 10],
        middle_alight: st[at + 11],
    }
}

// The same, and past the last slot the blank row.
pub fn row_at(st: &State, i: usize) -> Row
    ensures { result ≡ get_or (rows st.now) i no_row }
{
    if i < SLOTS {
        return slot_at(st, i);
    }
    no_row()
}

// No journey kept, up to the horizon.
pub fn fresh(horizon: u16, limits: u8) -> State
    ensures { view result ≡ going [] horizon limits }
{
    let mut st = [0u16; SIZE];
    st[HORIZON] = horizon;
    st[LIMITS] = limits as u16;
    st
}

// How many journeys are kept.
#[tactic(auto, unfolding(crate::specs::View::count_of))]
pub fn count(st: &State) -> usize
    ensures { result ≡ count_of st.now }
{
    usize::from(st[COUNT]).min(KEPT)
}

#[tactic(auto, unfolding(crate::specs::View::horizon_of))]
pub fn horizon(st: &State) -> u16
    ensures { result ≡ horizon_of st.now }
{
    st[HORIZON]
}

#[tactic(auto, unfolding(crate::specs::View::limits_of))]
pub fn limits(st: &State) -> u8
    ensures { result ≡ limits_of st.now }
{
    st[LIMITS].min(255) as u8
}

#[tactic(auto, unfolding(crate::specs::View::open_of))]
pub fn is_refused(st: &State) -> bool
    ensures { result ≡ not (open_of st.now) }
{
    st[REFUSED] != 0
}

// The i-th row kept; past the count the blank row.
pub fn kept(st: &State, i: usize) -> Row
    ensures { result ≡ get_or (kept_of st.now) i no_row }
{
    if i < count(st) {
        return row_at(st, i);
    }
    no_row()
}

// Whether an offer due at `arrival` would be passed over at once: it is due after the horizon, or the search is refused.
pub fn too_late(st: &State, arrival: u32) -> bool
    ensures { result ≡ too_late (view st.now) arrival }
{
    is_refused(st) || (horizon(st) as u32) < arrival
}
