// Journeys of three rides: what leads on from a ride. With no change left that is the targets where it ends, else every ride that it
// joins, with the number of changes left falling by one at each. What leads on at no target before `over` is not walked (`change`).
ghost use Rattle.std.specs.Prelude.{◌≡◌, [], ◌∷◌, ◌+◌, ◌≤◌, ◌<◌, get_or};
ghost use Rattle.search_input.specs.Feed.{call_at};
ghost use Rattle.rides.specs.Loops.{over_bits, over_calls, over_run, end_at, onward_rows, alight_on, board_on};
ghost use Rattle.rides.specs.Offered.{Offered};
ghost use Rattle.rides.specs.Over.{Over, Walked};
ghost use Rattle.rides.specs.Reach.{Onward, Onward-prop, block_end, Least};
ghost use Rattle.rides.specs.Sheets.{sheet_of};
ghost use Rattle.search_input.specs.Layout.{call_room};

use crate::bits::Digits;
use crate::call_list::{Calls, Ride};
use crate::joined::{BLOCK, BLOCKS, block_end};
use crate::lent::Lent;
use crate::offer::offer;
use crate::reach::Rows;
use crate::since::{Passed, asked_for};
use candidate::{Offer, candidate};
use search_input::layout::CALLS;
use search_input::{FirstRide, arrival_of};
use search_state::layout::State;

// Offers the first ride, then the rides p and r, to target x.
fn end_at(st: &mut State, calls: &Calls, f: FirstRide, p: Ride, r: Ride, x: u8)
    requires { x < 4 }
    ensures { Offered st.old st.new (end_at (sheet_of calls.now.feed.now) f p.board p.alight r.board r.alight x) }
{
    let first = offer(calls, f, 3, calls.at(r.alight).arrival, x);
    candidate(
        st,
        Offer {
            board2: r.board as u16,
            alight2: r.alight as u16,
            middle_board: p.board as u16,
            middle_alight: p.alight as u16,
            ..first
        },
    );
}

// The same, if it is due before `over`.
fn end_before(
    st: &mut State,
    calls: &Calls,
    f: FirstRide,
    p: Ride,
    r: Ride,
    x: u8,
    over: u32,
) -> u32
    requires { (x < 4) × Over st.old f 3 over }
    ensures { Walked st.old st.new (end_at (sheet_of calls.now.feed.now) f p.board p.alight r.board r.alight x) f 3 result }
{
    let due = arrival_of(calls.target_walk(x), calls.at(r.alight).arrival);
    if due < over {
        end_at(st, calls, f, p, r, x);
        return due;
    }
    over
}

// These targets.
fn ends_before(
    st: &mut State,
    calls: &Calls,
    f: FirstRide,
    p: Ride,
    r: Ride,
    targets: Digits,
    over: u32,
) -> u32
    requires { Over st.old f 3 over }
    ensures { Walked st.old st.new
        (over_bits (end_at (sheet_of calls.now.feed.now) f p.board p.alight r.board r.alight) targets.left) f 3 result }
{
    let mut over = over;
    for x in targets {
        over = end_before(st, calls, f, p, r, x, over);
    }
    over
}

// The journeys of three rides, and how early one can be at a target: from where a ride alights, by the number of changes left, and of the
// rides that board at a place, by the number left after them.
#[derive(Clone, Copy, Debug, PartialEq, Eq)]
pub struct ThreeRides<'a> {
    pub lent: Lent<'a>,
    pub times: &'a [[u16; CALLS]; 3],
    pub boards: &'a [[u16; CALLS]; 2],
    pub by_last: &'a Rows,
    pub by_middle: &'a Rows,
    ghost on_time: { Onward times.now boards.now (by_last.now ∷ by_middle.now ∷ []) lent.calls.feed.now lent.changes.now lent.calls.n } by { Onward-prop times.now boards.now (by_last.now ∷ by_middle.now ∷ []) lent.calls.feed.now lent.changes.now lent.calls.n },
}

impl<'a> ThreeRides<'a> {
    ghost use Rattle.rides.specs.Places.{sheet_in, joins_in, IsRun, IsRide};

    // A time before which nothing that leads on from m by so many changes is due.
    fn time_on(&self, left: u16, m: usize) -> u16
        requires { (left ≤ 2) × (m < call_room) }
        ensures { result ≡ get_or (get_or self.now.times.now left []) m 0 }
    {
        self.times[left as usize][m]
    }

    // The same of the rides that board at c, with so many changes left after them.
    fn time_from(&self, left: u16, c: usize) -> u16
        requires { (left ≤ 1) × (c < call_room) }
        ensures { result ≡ get_or (get_or self.now.boards.now left []) c 0 }
    {
        self.boards[left as usize][c]
    }

    // The same of the rides that one that alights at m joins, for each block of the calls where they board.
    fn row(&self, left: u16, m: usize) -> [u16; BLOCKS]
        requires { (left ≤ 1) × (m < call_room) }
        ensures { result ≡ get_or (get_or (self.now.by_last.now ∷ self.now.by_middle.now ∷ []) left []) m [] }
    {
        if left == 0 {
            return self.by_last[m];
        }
        self.by_middle[m]
    }

    // What leads on from the ride q, after r, if one can alight there.
    #[cycle(onward)]
    fn alight_on(&self, st: &mut State, f: FirstRide, left: u16, r: Ride, q: Ride, over: u32) -> u32
        requires { (left ≤ 1) × IsRun self.now.lent.calls.feed.now self.now.lent.calls.n q × Over st.old f 3 over }
        ensures { Walked st.old st.new
            (alight_on left (sheet_in self.now.lent) (joins_in self.now.lent) self.now.lent.calls.n f r.board r.alight q.board q.alight)
            f 3 result }
    {
        if over <= self.time_on(left, q.alight) as u32 {
            return over;
        }
        if self.lent.calls.at(q.alight).alight {
            return self.onward(st, f, left, r, q, over);
        }
        over
    }

    // The later calls of the trip and day of the call at c, up to where nothing leads on from those that follow before `over`.
    #[cycle(onward)]
    fn run_on(&self, st: &mut State, f: FirstRide, left: u16, r: Ride, c: usize, over: u32) -> u32
        requires { (left ≤ 1) × (c < self.now.lent.calls.n) × Over st.old f 3 over }
        ensures { Walked st.old st.new
            (over_run (alight_on left (sheet_in self.now.lent) (joins_in self.now.lent) self.now.lent.calls.n f r.board r.alight c)
            (call_at self.now.lent.calls.feed.now) self.now.lent.calls.n c (c + 1)) f 3 result }
    {
        let mut over = over;
        let mut d = c;
        // No iterator: what is still to come is asked before each step.
        while (self.time_from(left, d) as u32) < over {
            if self.lent.calls.goes_on(d) {
                d += 1;
                let q = Ride {
                    board: c,
                    alight: d,
                };
                over = self.alight_on(st, f, left, r, q, over);
            } else {
                return over;
            }
        }
        over
    }

    // The rides that board at c, if one of them leads on before `over` and the ride r, as p, joins them. Inlined, as in `change`.
    #[inline]
    #[cycle(onward)]
    fn board_on(
        &self,
        st: &mut State,
        f: FirstRide,
        left: u16,
        p: FirstRide,
        r: Ride,
        c: usize,
        over: u32,
    ) -> u32
        requires { (left ≤ 1) × (c < self.now.lent.calls.n) × Over st.old f 3 over }
        ensures { Walked st.old st.new
            (board_on left (sheet_in self.now.lent) (joins_in self.now.lent) self.now.lent.calls.n f p r.board r.alight c) f 3 result }
    {
        if over <= self.time_from(left, c) as u32 {
            return over;
        }
        if self.lent.can_board(p, c) {
            return self.run_on(st, f, left, r, c, over);
        }
        over
    }

    // Those that board in the block that begins at `from`, up to where none leads on before `over`: of those that p joins none does before
    // `t`.
    #[inline]
    #[cycle(onward)]
    fn block_on(
        &self,
        st: &mut State,
        f: FirstRide,
        left: u16,
        p: FirstRide,
        r: Ride,
        from: usize,
        t: u16,
        over: u32,
    ) -> u32
        requires { (left ≤ 1) × (from < call_room)
            × Least self.now.lent.calls.feed.now self.now.lent.changes.now (get_or self.now.boards.now left []) p from
            (block_end self.now.lent.calls.n from) t × Over st.old f 3 over }
        ensures { Walked st.old st.new
            (over_calls (board_on left (sheet_in self.now.lent) (joins_in self.now.lent) self.now.lent.calls.n f p r.board r.alight)
            (block_end self.now.lent.calls.n from) from) f 3 result }
    {
        let mut over = over;
        for c in from..block_end(self.lent.calls.n, from) {
            if over <= t as u32 {
                return over;
            }
            over = self.board_on(st, f, left, p, r, c, over);
        }
        over
    }

    // Every ride that the ride r joins, by blocks, up to where none leads on before `over`.
    #[cycle(onward)]
    fn rides_on(&self, st: &mut State, f: FirstRide, left: u16, r: Ride, over: u32) -> u32
        requires { (left ≤ 1) × IsRide self.now.lent.calls.feed.now self.now.lent.calls.n r × Over st.old f 3 over }
        ensures { Walked st.old st.new
            (onward_rows (left + 1) (sheet_in self.now.lent) (joins_in self.now.lent) self.now.lent.calls.n f 0 0 r.board r.alight)
            f 3 result }
    {
        let p = self.lent.calls.first_ride(r, 0);
        let least = self.time_on(left + 1, r.alight);
        let row = self.row(left, r.alight);
        let mut over = over;
        for b in 0..BLOCKS {
            if over <= least as u32 {
                return over;
            }
            over = self.block_on(st, f, left, p, r, b * BLOCK, row[b], over);
        }
        over
    }

    // What leads on from the ride r, before which came p, with so many changes left.
    #[cycle(onward)]
    fn onward(&self, st: &mut State, f: FirstRide, left: u16, p: Ride, r: Ride, over: u32) -> u32
        requires { (left ≤ 1) × IsRide self.now.lent.calls.feed.now self.now.lent.calls.n r × Over st.old f 3 over }
        ensures { Walked st.old st.new
            (onward_rows left (sheet_in self.now.lent) (joins_in self.now.lent) self.now.lent.calls.n f p.board p.alight r.board r.alight)
            f 3 result }
    {
        let calls = &self.lent.calls;
        if left == 0 {
            return ends_before(
                st,
                calls,
                f,
                p,
                r,
                calls.targets(calls.at(r.alight).stop),
                over,
            );
        }
        self.rides_on(st, f, left - 1, r, over)
    }

    // What leads on from the first ride f, which is r, by two changes; nothing if all of it is passed over, as is known or asked.
    pub fn three_rides(&self, st: &mut State, f: FirstRide, r: Ride, passed: Passed) -> Passed
        requires { IsRide self.now.lent.calls.feed.now self.now.lent.calls.n r × Over st.old f 3 passed.from }
        ensures { Walked st.old st.new
            (onward_rows 2 (sheet_in self.now.lent) (joins_in self.now.lent) self.now.lent.calls.n f 0 0 r.board r.alight)
            f 3 result.from }
    {
        let t = self.time_on(2, r.alight);
        if passed.from <= t as u32 {
            return passed;
        }
        let passed = asked_for(st, f, 3, t, passed);
        if passed.from <= t as u32 {
            return passed;
        }
        let from = self.rides_on(st, f, 1, r, passed.from);
        Passed { from, ..passed }
    }
}
