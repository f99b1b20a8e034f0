// The earliest arrival of any ride of a load at a target: what the margin of a stopped search reads.
ghost use Rattle.std.specs.Prelude.{◌≡◌};
ghost use Rattle.limited.specs.Margin.{target_arrivals};
ghost use Rattle.limited_rides.specs.Earliest.{soonest};
ghost use Rattle.search.specs.Timetable.{timetable_of};

use crate::numbers_told;
use call_order::sorted;
use limited_rides::earliest::earliest_of;
use load::Load;
use search_input::layout::FEED_SIZE;
use search_input_array::fill_feed;

// The earliest, walk included, of any ride that alights at a target, whether or not it boards at an origin.
pub fn earliest_arrival(load: &Load) -> Option<u32>
    ensures { result ≡ soonest (target_arrivals (timetable_of load.now)) }
{
    let calls = sorted(&load.calls, load.call_count);
    let mut feed = [0; FEED_SIZE];
    fill_feed(
        &mut feed,
        &calls,
        load.call_count,
        &load.stops,
        load.settings,
    );
    numbers_told(feed);
    earliest_of(&feed, load.call_count)
}
