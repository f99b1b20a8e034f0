// The feed of a search: its calls, the members of its stops and its walks as numbers in one array.
#![tactic(auto)]

ghost use Rattle.std.specs.Prelude.{◌≡◌, ℕ, ◌+◌, ◌*◌, ◌%◌, ◌^◌, ◌<◌, ◌≤◌, min, get_or};
ghost use Rattle.calls.specs.Tables.{blank_call};
ghost use Rattle.stops.specs.Sound.{stop_at};
ghost use Rattle.laws.specs.Regions.{Region, Blocks};
ghost use Rattle.search_input.specs.Layout.{call_width, members_place, target_walks_place};
ghost use Rattle.search_input_array.specs.Feeds.{stop_number, flags_of, six_of, masked_of, Feeds};
ghost use Rattle.stops.specs.Sizes.{stop_room};
ghost use Rattle.calls.specs.Sizes.{call_room};

use calls::Call;
use search_input::at_most_calls;
use search_input::layout::{CALL_WIDTH, CALLS, Feed, MEMBERS, ORIGIN_WALKS, STOPS, TARGET_WALKS};
use settings::Settings;
use stops::{NO_STOP, Stop};

// A stop past the 128th is 65535: that is no stop in the feed, which C lends.
#[tactic(auto, unfolding(crate::specs::Feeds::stop_number))]
fn stop_number(stop: u16) -> u16
    ensures { result ≡ stop_number stop }
{
    if (stop as usize) < STOPS {
        stop
    } else {
        NO_STOP
    }
}

#[tactic(auto, unfolding(crate::specs::Feeds::flags_of))]
fn flags_of(board: bool, alight: bool) -> u16
    ensures { result ≡ flags_of board alight }
{
    board as u16 + alight as u16 * 2
}

// The six numbers of a call. The array is lent whole with a place in it: what is proved of a feed speaks of places in the whole.
fn put_call(feed: &mut Feed, i: usize, call: Call)
    requires { i < call_room }
    ensures { Region (λ k. get_or (six_of call) k 0) (i * call_width) call_width feed.old feed.new }
{
    let stop = stop_number(call.stop);
    let flags = flags_of(call.board, call.alight);
    let at = i * CALL_WIDTH;
    feed[at] = call.trip;
    feed[at + 1] = call.day as u16;
    feed[at + 2] = stop;
    feed[at + 3] = call.arrival;
    feed[at + 4] = call.departure;
    feed[at + 5] = flags;
}

// The first `count` calls.
fn put_calls(feed: &mut Feed, calls: &[Call; CALLS], count: usize)
    ensures { Blocks call_width (λ i k. get_or (six_of (get_or calls.now i blank_call)) k 0) (min count call_room) feed.old feed.new }
{
    for i in 0..at_most_calls(count) {
        put_call(feed, i, calls[i]);
    }
}

// Two to the count, which is at most 4. That it is above 0 is told for the division.
fn power_of(count: u8) -> u8
    ensures { (result ≡ 2 ^ min count 4) × (0 < result) }
{
    1 << count.min(4)
}

// The lowest digits, as many as the count says, at most 4.
fn digits_of(count: u8, members: u8) -> u8
    ensures { result ≡ members % 2 ^ min count 4 }
{
    members % power_of(count)
}

// The membership byte with the digits past the counts left out.
fn masked_of(members: u8, origins: u8, targets: u8) -> u16
    ensures { result ≡ masked_of origins targets members }
{
    let low = digits_of(origins, members);
    let high = digits_of(targets, members / 16);
    low as u16 + high as u16 * 16
}

// The members of every stop.
fn put_members(feed: &mut Feed, stops: &[Stop; STOPS], origins: u8, targets: u8)
    ensures { Region (λ k. masked_of origins targets (stop_at stops.now k).members) members_place stop_room feed.old feed.new }
{
    for k in 0..STOPS {
        feed[MEMBERS + k] = masked_of(stops[k].members, origins, targets);
    }
}

// Four walks from a place on; lent whole, as in `put_call`.
fn put_walks(feed: &mut Feed, at: usize, walks: [u8; 4])
    requires { at ≤ target_walks_place }
    ensures { Region (λ k. get_or walks k 0) at 4 feed.old feed.new }
{
    for k in 0..4 {
        feed[at + k] = walks[k] as u16;
    }
}

// What a search of the first `count` calls reads of a load, put into an array that is lent.
pub fn fill_feed(
    feed: &mut Feed,
    calls: &[Call; CALLS],
    count: usize,
    stops: &[Stop; STOPS],
    settings: Settings,
)
    ensures { Feeds feed.new calls.now (min count call_room) stops.now settings }
{
    put_calls(feed, calls, count);
    put_members(feed, stops, settings.origins, settings.targets);
    put_walks(feed, ORIGIN_WALKS, settings.origin_walks);
    put_walks(feed, TARGET_WALKS, settings.target_walks);
}
