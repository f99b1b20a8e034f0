// An offer (`candidate`) to the kept list of a search.
#![tactic(auto)]

ghost use Rattle.std.specs.Prelude.{◌≡◌, Bool, [], ◌∷◌, ◌++◌, ◌+◌, ◌*◌, ◌≤◌, ◌<◌, length, set, take};
ghost use Rattle.profile.specs.Found.{Row};
ghost use Rattle.profile.specs.Journeys.{due};
ghost use Rattle.search_state.specs.Layout.{slots, width, size};
ghost use Rattle.search_state.specs.View.{row_at, rows, count_of, horizon_of, view};
ghost use Rattle.candidate.specs.Offer.{with_figures, offer_to, reads_to, passed_over};
ghost use Rattle.candidate.specs.Pieces.{stored, put_row, Ends, Packed, Open, latest_due, settled};
ghost use Rattle.profile.specs.Sizes.{kept_room, least_horizon};

pub mod times;
mod walk;

use crate::walk::first_near;
use profile::figures::Figures;
use profile::{Found, KEPT, LEAST_HORIZON, Row, no_row};
use search_state::layout::{COUNT, HORIZON, LIMITS, REFUSED, SLOTS, State, WIDTH};
use search_state::{count, row_at, too_late};

// Stores a row in slot i. That there is such a slot is asked, here, in `store` and in `search_state: slot_at`: a place read from a type
// would be opened at every use.
fn put_row(st: &mut State, i: usize, r: Row)
    requires { i < slots }
    ensures { st.new ≡ stored st.old i r }
{
    let at = i * WIDTH;
    st[at] = r.leave;
    st[at + 1] = r.arrival;
    st[at + 2] = r.rides;
    st[at + 3] = r.walk;
    st[at + 4] = r.origin;
    st[at + 5] = r.target;
    st[at + 6] = r.board;
    st[at + 7] = r.alight;
    st[at + 8] = r.board2;
    st[at + 9] = r.alight2;
    st[at + 10] = r.middle_board;
    st[at + 11] = r.middle_alight;
}

// Moves those of the rows from `from` up to c that stay behind the first `kept`, in order; how many there are then.
fn pack<F: Fn(Row) -> bool>(st: &mut State, from: usize, kept: usize, c: usize, stays: F) -> usize
    requires { F.IsAlwaysCallable stays × (kept ≤ from) × (from ≤ c) × (c ≤ slots) }
    ensures { (p : Row → Bool) → ((k : Row) (b : Bool) → F.post stays k b → b ≡ p k)
        → Packed p st.old st.old from kept → Packed p st.old st.new c result }
{
    let mut n = kept;
    for i in from..c {
        let k = row_at(st, i);
        if stays(k) {
            store(st, i, n, k);
            n += 1;
        }
    }
    n
}

// Puts the row k, which stands at i, at n; there is nothing to do if that is the same place.
fn store(st: &mut State, i: usize, n: usize, k: Row)
    requires { (n < slots) × (k ≡ row_at st.old i) }
    ensures { st.new ≡ put_row st.old n k }
{
    if n != i {
        put_row(st, n, k);
    }
}

// The latest arrival of them all.
fn latest(st: &State) -> u16
    ensures { result ≡ latest_due (rows st.now) }
{
    let mut m = 0u16;
    for i in 0..SLOTS {
        m = m.max(row_at(st, i).arrival);
    }
    m
}

// The horizon falls to h, and of the 65 rows those due later go. That the search is open each function asks for itself: no type holds it,
// since `overflow` may refuse the search in the midst.
fn fall(st: &mut State, h: u16)
    requires { Open st.old × (least_horizon ≤ h) × (latest_due (rows st.old) ≡ h + 1) }
    ensures { view st.new ≡ settled st.old (rows st.old) }
{
    let n = pack(st, 0, 0, SLOTS, |k| k.arrival <= h);
    st[COUNT] = n as u16;
    st[HORIZON] = h;
    st[LIMITS] = 1;
}

// The 65 rows are to be kept, which is one too many.
fn overflow(st: &mut State)
    requires { Open st.old }
    ensures { view st.new ≡ settled st.old (rows st.old) }
{
    let late = latest(st);
    if late <= LEAST_HORIZON {
        st[REFUSED] = 1;
        return;
    }
    fall(st, late - 1);
}

// The first n rows are to be kept, and o after them.
fn added(st: &mut State, n: usize, o: Row)
    requires { Open st.old × (n ≤ kept_room) }
    ensures { view st.new ≡ settled st.old (take n (rows st.old) ++ o ∷ []) }
{
    put_row(st, n, o);
    if n < KEPT {
        st[COUNT] = n as u16 + 1;
        return;
    }
    overflow(st);
}

// The walk over the c kept rows: o is passed over, or what it covers from where the walk stops goes and it is added. How many are read.
fn walked(st: &mut State, c: usize, o: Row) -> usize
    requires { Open st.old × (due o ≤ horizon_of st.old) × (c ≡ count_of st.old) × Ends st.old c o }
    ensures { (view st.new ≡ offer_to (view st.old) o) × (result ≡ reads_to (view st.old) o) }
{
    match first_near(st, c, o) {
        Ok(place) => place as usize + 1,
        Err(start) => {
            let j = start as usize / WIDTH;
            let n = pack(st, j, j, c, |k| !o.figures().covers(k.figures()));
            added(st, n, o);
            c
        }
    }
}

// Marks the end of the c kept rows for a walk: the slot behind them leaves when o does. `count` is read once for an offer; that c is at
// most 64 each function asks, as a type would be opened at every use.
fn mark(st: &mut State, c: usize, leave: u16)
    requires { c ≤ kept_room }
    ensures { st.new ≡ set st.old (c * width) leave }
{
    st[c * WIDTH] = leave;
}

// The offer of a row that is due in time; how many kept rows are read.
fn consider(st: &mut State, o: Row) -> usize
    requires { Open st.old × (due o ≤ horizon_of st.old) }
    ensures { (view st.new ≡ offer_to (view st.old) o) × (result ≡ reads_to (view st.old) o) }
{
    let c = count(st);
    mark(st, c, o.leave);
    walked(st, c, o)
}

// A journey as it is offered, with an arrival that may be past 65535, and so due after every horizon.
pub type Offer = Found<u32>;

// Offers a journey; how many kept journeys are read. Its row is made field by field, as `..offer` can't change a field's type.
pub fn candidate(st: &mut State, offer: Offer) -> usize
    ensures { (view st.new ≡ offer_to (view st.old) offer) × (result ≡ reads_to (view st.old) offer) }
{
    if too_late(st, offer.arrival) {
        return 0;
    }
    consider(
        st,
        Row {
            leave: offer.leave,
            arrival: offer.arrival as u16,
            rides: offer.rides,
            walk: offer.walk,
            origin: offer.origin,
            target: offer.target,
            board: offer.board,
            alight: offer.alight,
            board2: offer.board2,
            alight2: offer.alight2,
            middle_board: offer.middle_board,
            middle_alight: offer.middle_alight,
        },
    )
}

// Whether the offer of a journey with these figures would be passed over; then so would that of each one that it equals or beats. Only the
// end of the kept rows is marked, between the two tests.
#[inline]
pub fn passes_over(st: &mut State, offer: Figures) -> bool
    ensures { (view st.new ≡ view st.old) × (result ≡ passed_over (view st.old) (with_figures offer)) }
{
    if too_late(st, offer.arrival as u32) {
        return true;
    }
    let c = count(st);
    mark(st, c, offer.leave);
    let o = Row {
        leave: offer.leave,
        arrival: offer.arrival,
        rides: offer.rides,
        walk: offer.walk,
        ..no_row()
    };
    first_near(st, c, o).is_ok()
}
