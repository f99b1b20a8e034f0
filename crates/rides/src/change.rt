// Journeys with a change: what is offered after a first ride. They differ in arrival, target and last ride alone, so from some arrival on
// they are passed over: `over`, which each offer lowers to its own. Last rides that are at no target before it are not walked.
ghost use Rattle.std.specs.Prelude.{◌≡◌, ◌++◌, ◌+◌, ◌≤◌, ◌<◌};
ghost use Rattle.search_input.specs.Feed.{call_at};
ghost use Rattle.rides.specs.Loops.{over_bits, over_calls, over_run, last_at};
ghost use Rattle.rides.specs.Loops.{last_alight_rows, last_board_rows, change_rows, direct_at, direct_rows};
ghost use Rattle.rides.specs.Offered.{Offered};
ghost use Rattle.rides.specs.Over.{Over, Holds, Walked, Joined, Alights};
ghost use Rattle.rides.specs.Places.{sheet_in, joins_in};
ghost use Rattle.rides.specs.Reach.{block_end, Least, LeastByBlock};
ghost use Rattle.rides.specs.Sheets.{sheet_of};
ghost use Rattle.search_input.specs.Layout.{call_room};

use crate::bits::Digits;
use crate::bounds::bucket_of;
use crate::call_list::{Calls, Ride};
use crate::joined::{BLOCK, BLOCKS, JoinedTimes, block_end, joined_time};
use crate::last::{LastRides, last_at};
use crate::paths::direct_at;
use crate::since::{Since, asked};
use search_input::{FirstRide, arrival_of};
use search_state::layout::State;

// To target x with the ride r.
fn target_before(st: &mut State, calls: &Calls, f: FirstRide, r: Ride, x: u8, over: u32) -> u32
    requires { (x < 4) × Over st.old f 2 over }
    ensures { Walked st.old st.new (last_at (sheet_of calls.now.feed.now) f r.board r.alight x) f 2 result }
{
    let due = arrival_of(calls.target_walk(x), calls.at(r.alight).arrival);
    if due < over {
        last_at(st, calls, f, r, x);
        return due;
    }
    over
}

// These targets.
fn targets_before(
    st: &mut State,
    calls: &Calls,
    f: FirstRide,
    r: Ride,
    targets: Digits,
    over: u32,
) -> u32
    requires { Over st.old f 2 over }
    ensures { Walked st.old st.new (over_bits (last_at (sheet_of calls.now.feed.now) f r.board r.alight) targets.left) f 2 result }
{
    let mut over = over;
    for x in targets {
        over = target_before(st, calls, f, r, x, over);
    }
    over
}

fn alight_before(st: &mut State, calls: &Calls, f: FirstRide, r: Ride, over: u32) -> u32
    requires { Over st.old f 2 over }
    ensures { Walked st.old st.new (last_alight_rows (sheet_of calls.now.feed.now) f r.board r.alight) f 2 result }
{
    let a = calls.at(r.alight);
    if a.alight {
        return targets_before(st, calls, f, r, calls.targets(a.stop), over);
    }
    over
}

// The later calls of the trip and day of the call at j, up to where those that follow are at no target before `over`.
fn run_before(st: &mut State, last: &LastRides, f: FirstRide, j: usize, over: u32) -> u32
    requires { (j < last.now.lent.calls.n) × Over st.old f 2 over }
    ensures { Walked st.old st.new (over_run (last_alight_rows (sheet_in last.now.lent) f j) (call_at last.now.lent.calls.feed.now)
        last.now.lent.calls.n j (j + 1)) f 2 result }
{
    let calls = &last.lent.calls;
    let mut over = over;
    let mut m = j;
    // No iterator: what is still to come is asked before each step.
    while (last.bound(m) as u32) < over {
        if calls.goes_on(m) {
            m += 1;
            let r = Ride {
                board: j,
                alight: m,
            };
            over = alight_before(st, calls, f, r, over);
        } else {
            return over;
        }
    }
    over
}

// Those that board at j, if one of them is at a target before `over` and the first ride joins them. Inlined at each of its two callers, as
// at most places two numbers are compared.
#[inline(always)]
pub fn board_before(st: &mut State, last: &LastRides, f: FirstRide, j: usize, over: u32) -> u32
    requires { (j < last.now.lent.calls.n) × Over st.old f 2 over }
    ensures { Walked st.old st.new (last_board_rows (sheet_in last.now.lent) (joins_in last.now.lent) last.now.lent.calls.n f j) f 2 result }
{
    if over <= last.bound(j) as u32 {
        return over;
    }
    if last.lent.can_board(f, j) {
        return run_before(st, last, f, j, over);
    }
    over
}

// Those that board in the block that begins at `from`, up to where none is at a target before `over`: of all of them none is before `t`.
#[inline]
fn block_before(
    st: &mut State,
    last: &LastRides,
    f: FirstRide,
    from: usize,
    t: u16,
    over: u32,
) -> u32
    requires { (from < call_room) × Least last.now.lent.calls.feed.now last.now.lent.changes.now last.now.bounds.now f from
        (block_end last.now.lent.calls.n from) t × Over st.old f 2 over }
    ensures { Walked st.old st.new
        (over_calls (last_board_rows (sheet_in last.now.lent) (joins_in last.now.lent) last.now.lent.calls.n f)
        (block_end last.now.lent.calls.n from) from) f 2 result }
{
    let mut over = over;
    for j in from..block_end(last.lent.calls.n, from) {
        if over <= t as u32 {
            return over;
        }
        over = board_before(st, last, f, j, over);
    }
    over
}

// Every last ride, by blocks, up to where none is at a target before `over`: of all of them none is before `least`, and of those that board
// in a block none before its number in `row`.
fn rides_before(
    st: &mut State,
    last: &LastRides,
    f: FirstRide,
    row: &[u16; BLOCKS],
    least: u16,
    over: u32,
) -> u32
    requires { LeastByBlock last.now.lent.calls.feed.now last.now.lent.changes.now last.now.bounds.now last.now.lent.calls.n f row.now
        × Least last.now.lent.calls.feed.now last.now.lent.changes.now last.now.bounds.now f 0 last.now.lent.calls.n least
        × Over st.old f 2 over }
    ensures { Walked st.old st.new
        (over_calls (last_board_rows (sheet_in last.now.lent) (joins_in last.now.lent) last.now.lent.calls.n f) last.now.lent.calls.n 0)
        f 2 result }
{
    let mut over = over;
    for b in 0..BLOCKS {
        if over <= least as u32 {
            return over;
        }
        over = block_before(st, last, f, b * BLOCK, row[b], over);
    }
    over
}

// The journeys with a change after f. None is looked for where the earliest that it could be, by what departs after f arrives and by what
// is joined where it alights, is not before `since.two`, or would be passed over: most often it would, by one of the first rows kept.
fn change_rides(
    st: &mut State,
    joined: &mut JoinedTimes,
    last: &LastRides,
    f: FirstRide,
    since: Since,
) -> Since
    requires { Alights last.now.lent.calls.feed.now last.now.lent.calls.n f × Joined last.now joined.old × Over st.old f 2 since.two }
    ensures rows { Walked st.old st.new (change_rows (sheet_in last.now.lent) (joins_in last.now.lent) 1 last.now.lent.calls.n f)
        f 2 result.two }
    ensures array { Joined last.now joined.new }
    ensures one { result.one ≡ since.one }
{
    let t = last
        .bound(bucket_of(f.arrival))
        .max(joined.least[f.alight as usize]);
    if since.two <= t as u32 {
        return since;
    }
    let since = asked(st, f, t, since);
    if since.two <= t as u32 {
        return since;
    }
    let least = joined_time(joined, last, f);
    let row = joined.blocks[f.alight as usize];
    let two = rides_before(st, last, f, &row, least, since.two);
    Since { two, ..since }
}

// The ride alone, to target x, if it is due before `over`.
fn direct_before(st: &mut State, calls: &Calls, f: FirstRide, x: u8, over: u32) -> u32
    requires { (x < 4) × Over st.old f 1 over }
    ensures { Walked st.old st.new (direct_at (sheet_of calls.now.feed.now) f x) f 1 result }
{
    let due = arrival_of(calls.target_walk(x), f.arrival);
    if over <= due {
        return over;
    }
    direct_at(st, calls, f, x);
    due
}

// The targets of the stop where it ends.
pub(crate) fn directs_before(st: &mut State, calls: &Calls, f: FirstRide, over: u32) -> u32
    requires { Over st.old f 1 over }
    ensures { Walked st.old st.new (direct_rows (sheet_of calls.now.feed.now) f) f 1 result }
{
    let mut over = over;
    for x in calls.targets(f.stop) {
        over = direct_before(st, calls, f, x, over);
    }
    over
}

// The journeys of the first ride alone and then those with a change: a journey of one ride beats whatever is due no earlier by two.
pub(crate) fn first_before(
    st: &mut State,
    joined: &mut JoinedTimes,
    last: &LastRides,
    f: FirstRide,
    since: Since,
) -> Since
    requires { Alights last.now.lent.calls.feed.now last.now.lent.calls.n f × Joined last.now joined.old × Holds st.old f since }
    ensures rows { Offered st.old st.new (direct_rows (sheet_in last.now.lent) f
        ++ change_rows (sheet_in last.now.lent) (joins_in last.now.lent) 1 last.now.lent.calls.n f) }
    ensures array { Joined last.now joined.new }
    ensures since { Holds st.new f result }
{
    let one = directs_before(st, &last.lent.calls, f, since.one);
    let two = since.two.min(one);
    change_rides(st, joined, last, f, Since { one, two, ..since })
}
