// How early a last ride can bring one to a target: 1024 numbers, made once. The first 512 are one for each boarding call, the others one
// for each 128 seconds of the day, for whatever departs then or later. A time past 65535 is cut to it, and 65535 stands where there is no
// ride: the latest time is what a minimum begins with, so it needs no option.
ghost use Rattle.std.specs.Prelude.{◌≡◌, ◌+◌, ◌≤◌, ◌<◌};
ghost use Rattle.laws.specs.Bits.{bits_of};
ghost use Rattle.search_input.specs.Feed.{target_walk_of, arrival_of};
ghost use Rattle.rides.specs.Bounds.{AtTargets, AtCall, AtBoard, bucket_of, Lowered, Filled, Suffix, Bounds};
ghost use Rattle.search_input.specs.Layout.{call_room};

use crate::bits::Digits;
use crate::call_list::Calls;
use search_input::arrival_of;
use search_input::layout::CALLS;

// When whoever alights at a is at target x, cut to 65535.
fn due_at(calls: &Calls, a: u16, x: u8) -> u16
    requires { x < 4 }
    ensures { result ≤ arrival_of (target_walk_of calls.now.feed.now x) a }
{
    arrival_of(calls.target_walk(x), a).min(65535) as u16
}

// The earliest of these targets.
fn target_bound(calls: &Calls, a: u16, targets: Digits) -> u16
    ensures { AtTargets calls.now.feed.now a targets.left result }
{
    let mut t = 65535u16;
    for x in targets {
        t = t.min(due_at(calls, a, x));
    }
    t
}

// The same of the targets of the stop at place m, if one can alight there.
pub(crate) fn alight_bound(calls: &Calls, m: usize) -> u16
    requires { m < call_room }
    ensures { AtCall calls.now.feed.now m result }
{
    let c = calls.at(m);
    if c.alight {
        return target_bound(calls, c.arrival, calls.targets(c.stop));
    }
    65535
}

// The earliest for whoever boards at j: that of the next call of its run, or whoever boards there.
fn board_bound(bounds: &[u16; 1024], calls: &Calls, j: usize) -> u16
    requires { (j < calls.now.n) × Filled bounds.now calls.now.feed.now calls.now.n (j + 1) }
    ensures { AtBoard calls.now.feed.now calls.now.n j result }
{
    if calls.goes_on(j) {
        return bounds[j + 1].min(alight_bound(calls, j + 1));
    }
    65535
}

// The place of the number for rides that depart at t or later.
#[tactic(auto, unfolding(crate::specs::Bounds::bucket_of))]
pub(crate) fn bucket_of(t: u16) -> usize
    ensures { (result ≡ bucket_of t) × (result < 1024) × (call_room ≤ result) }
{
    CALLS + t as usize / 128
}

// The number for the time when j departs is no later than that for j, if one can board there.
fn put_bucket(bounds: &mut [u16; 1024], calls: &Calls, j: usize)
    requires { j < call_room }
    ensures { Lowered bounds.old bounds.new calls.now.feed.now j }
{
    let c = calls.at(j);
    if c.board {
        let q = bucket_of(c.departure);
        bounds[q] = bounds[q].min(bounds[j]);
    }
}

// One more call, from the right. Its number is what `reach` makes of the times at targets; here it goes into its bucket at once.
fn put_call(bounds: &mut [u16; 1024], calls: &Calls, j: usize)
    requires { (j < calls.now.n) × Filled bounds.old calls.now.feed.now calls.now.n (j + 1) }
    ensures { Filled bounds.new calls.now.feed.now calls.now.n j }
{
    let t = board_bound(bounds, calls, j);
    bounds[j] = t;
    put_bucket(bounds, calls, j);
}

fn put_calls(bounds: &mut [u16; 1024], calls: &Calls)
    ensures { Filled bounds.new calls.now.feed.now calls.now.n 0 }
{
    for j in (0..calls.n).rev() {
        put_call(bounds, calls, j);
    }
}

// Each number for a time of departure is no later than those for later times.
fn put_later(bounds: &mut [u16; 1024])
    ensures { Suffix bounds.old bounds.new }
{
    for q in (CALLS..1023).rev() {
        bounds[q] = bounds[q].min(bounds[q + 1]);
    }
}

// The numbers of a search.
pub fn bounds_of(calls: &Calls) -> [u16; 1024]
    ensures { Bounds result calls.now.feed.now calls.now.n }
{
    let mut bounds = [65535u16; 1024];
    put_calls(&mut bounds, calls);
    put_later(&mut bounds);
    bounds
}
