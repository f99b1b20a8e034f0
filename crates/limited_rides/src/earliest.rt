// The earliest that any ride brings one to a target, walk included: what the margin of a stopped search reads.
ghost use Rattle.std.specs.Prelude.{◌≡◌, cond, ◌+◌, ◌≤◌, ◌<◌, min, None};
ghost use Rattle.search_input.specs.Feed.{call_at};
ghost use Rattle.limited_rides.specs.Earliest.{sooner, soonest, target_due, alight_due, later_due, ride_due};
ghost use Rattle.calls.specs.Sizes.{call_room};

use rides::bits::Digits;
use rides::call_list::Calls;
use search_input::arrival_of;
use search_input::layout::Feed;

// The sooner of two times, either of which may be missing. The loops are those of `rides: bounds`, but with a time past 65535 as it is.
#[tactic(auto, unfolding(crate::specs::Earliest::sooner))]
fn sooner(a: Option<u32>, b: Option<u32>) -> Option<u32>
    ensures { result ≡ sooner a b }
{
    match (a, b) {
        (Some(x), Some(y)) => Some(x.min(y)),
        _ => a.or(b),
    }
}

// The earliest of these targets.
fn at_targets(calls: &Calls, a: u16, targets: Digits) -> Option<u32>
    ensures { result ≡ soonest (target_due calls.now.feed.now a targets.left) }
{
    let mut t = None;
    for x in targets {
        t = sooner(t, Some(arrival_of(calls.target_walk(x), a)));
    }
    t
}

// The same of the targets of the stop at place m, if one can alight there.
fn at_alighting(calls: &Calls, m: usize) -> Option<u32>
    requires { m < call_room }
    ensures { result ≡ soonest (alight_due calls.now.feed.now m) }
{
    let c = calls.at(m);
    if c.alight {
        return at_targets(calls, c.arrival, calls.targets(c.stop));
    }
    None
}

// The earliest for whoever boards at j: that of the next call of its run, or of whoever boards there, which is `next`.
fn at_later(calls: &Calls, j: usize, next: Option<u32>) -> Option<u32>
    requires { (j < calls.now.n) × (j + 1 < calls.now.n → next ≡ soonest (later_due calls.now.feed.now calls.now.n (j + 1))) }
    ensures { result ≡ soonest (later_due calls.now.feed.now calls.now.n j) }
{
    if calls.goes_on(j) {
        return sooner(at_alighting(calls, j + 1), next);
    }
    None
}

// t, if one can board at j.
fn at_boarding(calls: &Calls, j: usize, t: Option<u32>) -> Option<u32>
    requires { j < call_room }
    ensures { result ≡ cond (call_at calls.now.feed.now j).board t None }
{
    if calls.at(j).board { t } else { None }
}

fn least_of(calls: &Calls) -> Option<u32>
    ensures { result ≡ soonest (ride_due calls.now.feed.now calls.now.n) }
{
    let mut next = None;
    let mut least = None;
    for j in (0..calls.n).rev() {
        next = at_later(calls, j, next);
        least = sooner(at_boarding(calls, j, next), least);
    }
    least
}

// The earliest of every ride over the first n calls; none where no ride alights at a target.
pub fn earliest_of(feed: &Feed, n: usize) -> Option<u32>
    ensures { result ≡ soonest (ride_due feed.now (min n call_room)) }
{
    least_of(&Calls::first(feed, n))
}
